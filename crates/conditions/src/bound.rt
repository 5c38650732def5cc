// The elements that the variables are bound to, as far as they are known.
ghost use Rattle.std.specs.Prelude.{◌≡◌, ◌<◌};
ghost use Rattle.conditions.specs.Bound.{binding_of, bound_of, Unbound, Rebound};

use compiled::Element;

// What is known of the element of each variable: slot 0 is no variable's.
#[derive(Clone, Copy)]
pub struct Bound {
    pub slots: [Option<Element>; 9],
}

impl Bound {
    // Nothing is known.
    pub fn unknown() -> Self
        ensures { Unbound result }
    {
        Bound { slots: [None; 9] }
    }

    // What is known of x.
    pub fn of(self, x: usize) -> Option<Element>
        requires { x < 9 }
        ensures { binding_of result ≡ bound_of self x }
    {
        self.slots[x]
    }

    // These elements, with what is known of x put anew.
    pub fn with(mut self, x: usize, known: Option<Element>) -> Self
        requires { x < 9 }
        ensures { Rebound self x known result }
    {
        self.slots[x] = known;
        self
    }
}
