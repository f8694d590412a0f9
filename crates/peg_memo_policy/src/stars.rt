//! What may become of the bytes that the stars of a rule's body match.
use peg_core::{Core, Node};
use std::alloc::{AllocError, Global};

// The maximum number of forms of a body that are visited.
const MAX_FORMS: u32 = 256;

/// What may become of the bytes that a star matched, from the best to the worst.
#[derive(Clone, Copy, Debug)]
pub(crate) enum StarEffect {
    /// The rule ends after the star.
    Committed,
    /// The rule may fail after the star.
    MayFail,
    /// The match may be discarded while the rule continues.
    MayBeDiscarded,
}

// Whether a failure at a form of a body can be caught within the body.
#[derive(Clone, Copy)]
enum Failure {
    // The rule fails.
    FailsTheRule,
    // An enclosing choice, star or not-predicate of the body continues.
    IsCaught,
}

// A form to be visited: what becomes of a match that ends with it, and of a failure at it.
#[derive(Clone, Copy)]
struct Place {
    form: u32,
    effect: StarEffect,
    failure: Failure,
}

// The search for the stars of a body.
#[derive(Drop)]
struct Search<'a> {
    core: &'a Core,
    places: Vec<Place>,
    worst: StarEffect,
}

/// Returns the worst effect of the stars in the body of a rule. A star that calls a rule in each iteration is harmless,
/// since the memo counts its calls. The only error is a failed allocation.
pub(crate) fn worst_star(alloc: Global, core: &Core, rule: u32) -> Result<StarEffect, AllocError> {
    if rule >= core.rules() {
        return Ok(StarEffect::Committed);
    }
    let mut search = Search {
        core,
        places: Vec::new(alloc),
        worst: StarEffect::Committed,
    };
    search.places.push(Place {
        form: core.body(rule),
        effect: StarEffect::Committed,
        failure: Failure::FailsTheRule,
    })?;
    for _ in 0..MAX_FORMS {
        match search.places.pop() {
            Some(place) => search.visit(alloc, place)?,
            None => return Ok(search.worst),
        }
    }
    Ok(StarEffect::MayBeDiscarded)
}

impl Search<'_> {
    // Visits a form: notes the effect of a star, and pushes the parts of the form.
    fn visit(&mut self, alloc: Global, place: Place) -> Result<(), AllocError> {
        match self.node(place.form) {
            Node::Empty | Node::Test { .. } | Node::Rule(_) => Ok(()),
            Node::Seq(first, rest) => {
                let effect = self.effect_before(rest, place);
                self.push(first, effect, place.failure)?;
                self.push(rest, place.effect, place.failure)
            }
            Node::Choice(first, rest) => {
                self.push(first, place.effect, Failure::IsCaught)?;
                self.push(rest, place.effect, place.failure)
            }
            Node::Star(part) => {
                if !self.calls_each_time(alloc, part)? {
                    self.worst = worse(self.worst, place.effect);
                }
                self.push(part, place.effect, Failure::IsCaught)
            }
            Node::Not(part) => self.push(part, StarEffect::MayBeDiscarded, Failure::IsCaught),
        }
    }

    fn push(&mut self, form: u32, effect: StarEffect, failure: Failure) -> Result<(), AllocError> {
        self.places.push(Place {
            form,
            effect,
            failure,
        })?;
        Ok(())
    }

    // What becomes of a match that ends before the rest of a sequence at this place.
    fn effect_before(&self, rest: u32, place: Place) -> StarEffect {
        match (self.node(rest), place.failure) {
            (Node::Empty, _) => place.effect,
            (_, Failure::FailsTheRule) => StarEffect::MayFail,
            (_, Failure::IsCaught) => StarEffect::MayBeDiscarded,
        }
    }

    // Whether a part calls a rule each time it matches. Only tests and not-predicates may come before the call.
    fn calls_each_time(&self, alloc: Global, part: u32) -> Result<bool, AllocError> {
        let mut forms = Vec::new(alloc);
        forms.push(part)?;
        for _ in 0..MAX_FORMS {
            let Some(form) = forms.pop() else {
                return Ok(false);
            };
            match self.node(form) {
                Node::Rule(_) => return Ok(true),
                Node::Choice(..) | Node::Star(_) => return Ok(false),
                Node::Seq(first, rest) => {
                    forms.push(rest)?;
                    forms.push(first)?;
                }
                Node::Empty | Node::Test { .. } | Node::Not(_) => {}
            }
        }
        Ok(false)
    }

    // The node with a number; `Empty` if there is none.
    fn node(&self, form: u32) -> Node {
        if form < self.core.len() {
            self.core.node(form)
        } else {
            Node::Empty
        }
    }
}

// The worse of two effects.
fn worse(one: StarEffect, other: StarEffect) -> StarEffect {
    match (one, other) {
        (StarEffect::Committed, _) => other,
        (StarEffect::MayFail, StarEffect::MayBeDiscarded) => other,
        _ => one,
    }
}
