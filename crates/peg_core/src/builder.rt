//! A flat list of core forms, where the parts of a form have smaller numbers.
ghost use Rattle.std.specs.Prelude.{◌≡◌, ◌<◌, ◌≤◌, [], ◌∷◌, ◌++◌, length, slice_get, IfOk, OnOk, Some};
ghost use Rattle.peg_bytes.specs.Extent.{Extent, extent};
ghost use Rattle.peg_semantics.specs.Grammar.{max_parts};
ghost use Rattle.peg_core.specs.CoreForm.{is_all_empty};
ghost use Rattle.peg_core.specs.Layout.{form_at, max_forms};
ghost use Rattle.peg_core.specs.CoreNodes.{NodeFits, IsStarFrom, IsFormOfNode, shape};
ghost use Rattle.peg_core.specs.FormsOfNodes.{AreFormsOfNodes};

use crate::node::{Entry, Node};
use crate::packed::PackedNodes;
use peg_bytes::Span;
use std::alloc::{AllocError, Global};
use std::marker::Model;

/// Core forms by number, and the spans of their terminals. The list grows while a grammar is desugared. A mark for each
/// form says whether it is built of empty expressions alone.
#[derive(Debug, Drop)]
pub(crate) struct CoreBuilder {
    rules: u32,
    nodes: PackedNodes,
    all_empty: Vec<bool>,
    spans: Vec<Span>,
}

impl Model for CoreBuilder {
    ghost use Rattle.peg_core.specs.CoreCode.{layout_code};
    ghost use Rattle.peg_core.specs.Layout.{Layout};

    ghost Value = { Layout };

    ghost coded = { layout_code };

    ghost use Rattle.peg_core.specs.BuilderForms.{layout_of, IsBuilder};

    ghost view = { layout_of };

    ghost invariant = { IsBuilder };
}

impl CoreBuilder {
    /// Returns a list without forms and terminals, for a grammar with this number of rules.
    pub(crate) fn new(alloc: Global, rules: u32) -> CoreBuilder
        ensures { result ≡ record { rules = rules; forms = []; spans = [] } }
    {
        CoreBuilder {
            rules,
            nodes: PackedNodes::new(alloc),
            all_empty: Vec::new(alloc),
            spans: Vec::new(alloc),
        }
    }

    /// Appends a terminal with its span, and returns its number. The only error is a failed allocation.
    pub(crate) fn terminal(&mut self, span: Span) -> Result<u32, AllocError>
        requires { length self.old.spans < max_parts }
        ensures number { IfOk result (λ terminal. terminal ≡ length self.old.spans) }
        ensures put { OnOk result (self.new ≡ record self.old { spans = self.old.spans ++ extent span ∷ [] }) }
    {
        let terminal = self.spans.len() as u32;
        self.spans.push(span)?;
        Ok(terminal)
    }

    /// Appends a form whose parts are in the list, and returns its number. The only error is a failed allocation.
    pub(crate) fn push(&mut self, node: Node, origin: Span) -> Result<u32, AllocError>
        requires room { length self.old.forms < max_forms }
        requires fits { NodeFits (length self.old.forms) self.old.rules (length self.old.spans) node }
        ensures number { IfOk result (λ number. number ≡ length self.old.forms) }
        ensures put { OnOk result (self.new
            ≡ record self.old { forms = self.old.forms ++ shape self.old.forms (extent origin) node ∷ [] }) }
    {
        let number = self.nodes.len() as u32;
        let all_empty = self.is_node_all_empty(node);
        // Reserves the mark first, so that a failed allocation leaves no form without its mark.
        self.all_empty.reserve(1)?;
        self.nodes.push(Entry { node, origin })?;
        self.all_empty.push_reserved(all_empty);
        Ok(number)
    }

    // Whether the form of a node, whose parts are in the list, is built of empty expressions alone.
    fn is_node_all_empty(&self, node: Node) -> bool
        requires { NodeFits (length self.now.forms) self.now.rules (length self.now.spans) node }
        ensures { (origin : Extent) → result ≡ is_all_empty (shape self.now.forms origin node) }
    {
        match node {
            Node::Empty => true,
            Node::Seq(first, rest) => self.is_all_empty(first) && self.is_all_empty(rest),
            _ => false,
        }
    }

    /// Returns whether a form is the empty expression or a sequence of empty expressions. Takes constant time.
    pub(crate) fn is_all_empty(&self, number: u32) -> bool
        requires { number < length self.now.forms }
        ensures { result ≡ is_all_empty (form_at self.now.forms number) }
    {
        self.all_empty[number as usize]
    }

    /// Returns the number of forms.
    pub(crate) fn len(&self) -> u32
        ensures count { result ≡ length self.now.forms }
        ensures most { result ≤ max_forms }
        ensures spelled { AreFormsOfNodes self.now.forms self.now.rules (length self.now.spans) }
    {
        self.nodes.len() as u32
    }

    /// Returns the number of terminals.
    pub(crate) fn terminals(&self) -> u32
        ensures count { result ≡ length self.now.spans }
        ensures most { result ≤ max_parts }
    {
        self.spans.len() as u32
    }

    /// Returns the form with a number. It names its parts by their numbers.
    pub(crate) fn node(&self, number: u32) -> Node
        requires { number < length self.now.forms }
        ensures form { IsFormOfNode self.now.forms number result }
        ensures fits { NodeFits number self.now.rules (length self.now.spans) result }
    {
        self.nodes.node(number)
    }

    /// Returns the span of the written star or plus of a star.
    pub(crate) fn origin(&self, number: u32) -> Span
        requires within { number < length self.now.forms }
        requires star { (origin : Extent) × IsStarFrom self.now.forms number origin }
        ensures { IsStarFrom self.now.forms number (extent result) }
    {
        self.nodes.origin(number)
    }

    /// Returns the span of a terminal.
    pub(crate) fn terminal_span(&self, terminal: u32) -> Span
        requires { terminal < length self.now.spans }
        ensures { slice_get self.now.spans terminal ≡ Some (extent result) }
    {
        self.spans[terminal as usize]
    }
}
