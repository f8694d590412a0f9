//! Parts of a tree's node list, and a stack of parts of fixed capacity, without allocation.
ghost use Rattle.std.specs.Prelude.{◌≡◌, ◌<◌, ◌≤◌, ◌∷◌, ◌++◌, [], List, MatchOption, length, take};

use std::marker::Model;

// Adjacent whole trees: the nodes with numbers from `from` up to `to`, and the level of their roots.
#[derive(Clone, Copy)]
pub(crate) struct Part {
    pub from: usize,
    pub to: usize,
    pub level: usize,
}

// A stack of at most 65 parts.
#[derive(Drop)]
pub(crate) struct PartStack {
    parts: [Part; 65],
    len: usize,
}

impl Model for PartStack {
    ghost use Rattle.std.specs.Prelude.{List, take, ◌≤◌};
    ghost use Rattle.peg_tree.specs.declared.part.Part.{Part};

    ghost Value = { List Part };

    ghost view = { λ stack. take stack.len stack.parts };

    ghost invariant = { λ stack. stack.len ≤ 65 };
}

impl PartStack {
    pub(crate) fn new(part: Part) -> PartStack
        ensures { result ≡ part ∷ [] }
    {
        PartStack {
            parts: [part; 65],
            len: 1,
        }
    }

    pub(crate) fn push(&mut self, part: Part)
        requires { length self.old < 65 }
        ensures { self.new ≡ self.old ++ part ∷ [] }
    {
        self.parts[self.len] = part;
        self.len += 1;
    }

    pub(crate) fn pop(&mut self) -> Option<Part>
        ensures { MatchOption result (self.old ≡ []) (λ part. self.old ≡ self.new ++ part ∷ []) }
    {
        if self.len == 0 {
            return None;
        }
        self.len -= 1;
        Some(self.parts[self.len])
    }
}
