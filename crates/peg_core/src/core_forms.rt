//! The core forms of a grammar. Contracts see them as trees.
ghost use Rattle.std.specs.Prelude.{◌≡◌, ℕ, ◌<◌, ◌≤◌, All, length, map, slice_get, slice_index_or, Some};
ghost use Rattle.peg_bytes.specs.Extent.{Extent, extent};
ghost use Rattle.peg_semantics.specs.Grammar.{max_parts};
ghost use Rattle.peg_core.specs.CoreLoops.{IsSubformOfBody};
ghost use Rattle.peg_core.specs.Layout.{bodies_of, form_at, max_forms};
ghost use Rattle.peg_core.specs.CoreNodes.{NodeFits, IsStarFrom, IsFormOfNode};
ghost use Rattle.peg_core.specs.FormsOfNodes.{AllAreFormsOfNodes};

use crate::Node;
use crate::builder::CoreBuilder;
use peg_bytes::Span;
use std::marker::Model;

/// The core forms of a grammar (Ford 2004, section 3.1). Each form has a number, and its parts have smaller numbers.
/// The body of each rule is one of the forms.
#[derive(Debug, Drop)]
pub struct Core {
    builder: CoreBuilder,
    bodies: Vec<u32>,
}

impl Model for Core {
    ghost use Rattle.peg_core.specs.CoreCode.{desugared_code};
    ghost use Rattle.peg_core.specs.Layout.{Desugared};

    ghost Value = { Desugared };

    ghost coded = { desugared_code };

    ghost use Rattle.peg_core.specs.Cores.{desugared_of, IsCore};

    ghost view = { desugared_of };

    ghost invariant = { IsCore };
}

impl Core {
    // Joins the forms and the number of each rule's body.
    pub(crate) fn new(builder: CoreBuilder, bodies: Vec<u32>) -> Core
        requires rules { length bodies.items ≡ builder.rules }
        requires few { builder.rules ≤ max_parts }
        requires within { (k d : ℕ) → k < length bodies.items → slice_index_or bodies.items k d < length builder.forms }
        requires owned { All (IsSubformOfBody (map (form_at builder.forms) bodies.items)) builder.forms }
        ensures { result ≡ record { forms = builder.forms; bodies = bodies.items; spans = builder.spans } }
    {
        Core { builder, bodies }
    }

    /// Returns the number of core forms. The body of each rule is one of them, each is part of the body of a rule, and
    /// each is the form of a `Node`. Takes constant time.
    pub fn len(&self) -> u32
        ensures count { result ≡ length self.now.forms }
        ensures most { result ≤ max_forms }
        ensures bodies { All (λ body. body < length self.now.forms) self.now.bodies }
        ensures owned { All (IsSubformOfBody (bodies_of self.now)) self.now.forms }
        ensures spelled { AllAreFormsOfNodes self.now }
    {
        self.builder.len()
    }

    /// Returns the core form with a number. It names its parts by their numbers. Takes constant time.
    pub fn node(&self, number: u32) -> Node
        requires { number < length self.now.forms }
        ensures form { IsFormOfNode self.now.forms number result }
        ensures fits { NodeFits number (length self.now.bodies) (length self.now.spans) result }
    {
        self.builder.node(number)
    }

    /// Returns the span, in the grammar file, of the written star or plus of a star. Takes constant time.
    pub fn origin(&self, number: u32) -> Span
        requires within { number < length self.now.forms }
        requires star { (origin : Extent) × IsStarFrom self.now.forms number origin }
        ensures { IsStarFrom self.now.forms number (extent result) }
    {
        self.builder.origin(number)
    }

    /// Returns the number of rules. Takes constant time.
    pub fn rules(&self) -> u32
        ensures count { result ≡ length self.now.bodies }
        ensures most { result ≤ max_parts }
    {
        self.bodies.len() as u32
    }

    /// Returns the number of the form that is a rule's body. Takes constant time.
    pub fn body(&self, rule: u32) -> u32
        requires { rule < length self.now.bodies }
        ensures number { slice_get self.now.bodies rule ≡ Some result }
        ensures within { result < length self.now.forms }
    {
        self.bodies[rule as usize]
    }

    /// Returns the number of terminals in the rules. Takes constant time.
    pub fn terminals(&self) -> u32
        ensures count { result ≡ length self.now.spans }
        ensures most { result ≤ max_parts }
    {
        self.builder.terminals()
    }

    /// Returns the span of a terminal in the grammar file, in byte offsets. Takes constant time.
    pub fn terminal_span(&self, terminal: u32) -> Span
        requires { terminal < length self.now.spans }
        ensures { slice_get self.now.spans terminal ≡ Some (extent result) }
    {
        self.builder.terminal_span(terminal)
    }
}
