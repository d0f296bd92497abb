// How many sections and how many tokens are held.
ghost use Rattle.std.specs.Prelude.{◌≡◌, ◌+◌, ◌-◌, Some, IfSome, option_map};
ghost use Rattle.lpc_homes.specs.Numbered.{Grows, Shrinks, is_section, is_token};

use crate::Object;

/// How many different sections some handle names or some view shows, and how many different tokens some handle names;
/// None of what isn't known any more.
#[derive(Clone, Copy)]
pub struct Held {
    /// How many sections.
    pub sections: Option<usize>,
    /// How many tokens.
    pub tokens: Option<usize>,
}

impl Held {
    /// No section is held, and no token.
    pub fn none() -> Held
        ensures { result ≡ record { sections = Some 0; tokens = Some 0 } }
    {
        Held {
            sections: Some(0),
            tokens: Some(0),
        }
    }

    /// An object is held from now on that was not.
    pub fn add(&mut self, object: Object)
        ensures sections { Grows (is_section object) self.old.sections self.new.sections }
        ensures tokens { Grows (is_token object) self.old.tokens self.new.tokens }
    {
        match object {
            Object::Section(_) => self.sections = one_more(self.sections),
            Object::Token(_) => self.tokens = one_more(self.tokens),
            Object::Port(_) | Object::Process(_) | Object::Thread(_) => (),
        }
    }

    /// An object is held no longer that was.
    pub fn take(&mut self, object: Object)
        ensures sections { Shrinks (is_section object) self.old.sections self.new.sections }
        ensures tokens { Shrinks (is_token object) self.old.tokens self.new.tokens }
    {
        match object {
            Object::Section(_) => self.sections = one_less(self.sections),
            Object::Token(_) => self.tokens = one_less(self.tokens),
            Object::Port(_) | Object::Process(_) | Object::Thread(_) => (),
        }
    }
}

/// One more than a number that is known.
fn one_more(number: Option<usize>) -> Option<usize>
    ensures { IfSome result (λ n. option_map (λ m. m + 1) number ≡ Some n) }
{
    number?.checked_add(1)
}

/// One less than a number that is known.
fn one_less(number: Option<usize>) -> Option<usize>
    ensures { IfSome result (λ n. option_map (λ m. m - 1) number ≡ Some n) }
{
    number?.checked_sub(1)
}
