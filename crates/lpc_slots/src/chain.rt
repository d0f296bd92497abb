//! Chains through the rows of a table, each in an order of its own.
ghost use Rattle.std.specs.Prelude.{◌≡◌, ◌∷◌, Some, None, IsSome, option_map};
ghost use Rattle.std.specs.Option.{option_map_or, option_to_list};
ghost use Rattle.lpc_slots.specs.declared.chain.Links.{Links};
ghost use Rattle.lpc_slots.specs.Table.{at};
ghost use Rattle.lpc_slots.specs.Chain.{Appends, HasIn, IsAlone, IsStanding, RelinksSecond, RelinksNext, Relinks, TakesFirst, TakesOut, changed, links_at};

use crate::{Key, Slots};

/// What a row keeps of a chain on which it stands: the rows next to it. This project's own.
#[derive(Clone, Copy, Default, PartialEq, Eq)]
pub struct Links {
    /// The row before it; none where it is the first.
    pub before: Option<Key>,
    /// The row behind it; none where it is the last.
    pub after: Option<Key>,
}

/// A row that can stand on the chains of one number. It may stand on one chain of each number.
pub trait Linked<const LIST: usize> {
    ghost links_of: { Self → Links };

    ghost with_links: { Self → Links → Self };

    /// The links of the row.
    fn links(&self) -> Links
        ensures { result ≡ links_of self.now };

    /// Gives the row other links, and changes nothing else of it.
    fn set_links(&mut self, links: Links)
        ensures { self.new ≡ with_links self.old links };

    ghost gives_back: { (value : Self) (links : Links) →
        links_of (with_links value links) ≡ links };

    ghost overwrites: { (value : Self) (one two : Links) →
        with_links (with_links value one) two ≡ with_links value two };
}

/// The two ends of a chain of rows. Which rows it stands for is told by their links.
///
/// Over given slots it stands for a sequence of different rows. It has no type, since it keeps no value. None of its
/// calls takes memory. This project's own.
#[derive(Clone, Copy, PartialEq, Eq)]
pub struct Chain<const LIST: usize> {
    /// The first row; none where the chain is empty.
    pub first: Option<Key>,
    /// The last row; none where the chain is empty.
    pub last: Option<Key>,
}

// Other links for a row, where there is one.
fn relink<const LIST: usize, T: Linked<LIST>>(slots: &mut Slots<T>, key: Key, links: Links)
    ensures { slots.new ≡ changed slots.old (Some key) (λ value. T.with_links value links) }
{
    if let Some(value) = slots.get_mut(key) {
        value.set_links(links);
    }
}

// The links of a row that is there.
fn read_links<const LIST: usize, T: Linked<LIST>>(slots: &Slots<T>, key: Key) -> Links
    requires { IsSome (at slots.now key) }
    ensures { links_at T.links_of slots.now key ≡ Some result }
{
    match slots.get(key) {
        Some(value) => value.links(),
        None => unreachable!(),
    }
}

impl<const LIST: usize> Chain<LIST> {
    /// A chain without a row.
    pub fn empty() -> Chain<LIST>
        ensures first { result.first ≡ None }
        ensures last { result.last ≡ None }
    {
        Chain {
            first: None,
            last: None,
        }
    }

    /// The first row: None exactly where the chain is empty.
    pub fn front(&self) -> Option<Key>
        ensures { result ≡ self.now.first }
    {
        self.first
    }

    /// Puts a row at the end of the chain.
    ///
    /// The row is there. The chain stands for rows over these slots, and this is none of them.
    pub fn push_back<T: Linked<LIST>>(&mut self, slots: &mut Slots<T>, key: Key)
        requires present { IsSome (at slots.old key) }
        ensures chain { Appends T.links_of slots.old slots.new self.old self.new key }
        ensures links { let last = option_to_list self.old.last in
            Relinks T.with_links (key ∷ last) slots.old slots.new }
    {
        relink(
            slots,
            key,
            Links {
                before: self.last,
                after: None,
            },
        );
        self.set_after(slots, self.last, Some(key));
        self.last = Some(key);
    }

    /// Puts a row that stands next to none at the end of the chain. Where the chain is empty, the row stays as it is.
    ///
    /// The chain stands for rows over these slots, and this is none of them.
    pub fn push_new<T: Linked<LIST>>(&mut self, slots: &mut Slots<T>, key: Key)
        requires alone { IsAlone T.links_of slots.old key }
        ensures chain { Appends T.links_of slots.old slots.new self.old self.new key }
        ensures links { let last = option_to_list self.old.last in
            Relinks T.with_links (key ∷ last) slots.old slots.new }
    {
        if self.last.is_none() {
            self.first = Some(key);
            self.last = Some(key);
        } else {
            self.push_back(slots, key);
        }
    }

    /// Takes a row out of the chain, wherever it stands. Its own links stay as they are.
    ///
    /// The chain stands for rows over these slots, and this is one of them.
    pub fn unlink<T: Linked<LIST>>(&mut self, slots: &mut Slots<T>, key: Key)
        requires { HasIn T.links_of slots.old self.old key }
        ensures chain { TakesOut T.links_of slots.old slots.new self.old self.new key }
        ensures links { RelinksNext T.links_of T.with_links slots.old slots.new self.old key }
    {
        let links = read_links(slots, key);
        self.set_after(slots, links.before, links.after);
        self.set_before(slots, links.after, links.before);
    }

    /// Takes the first row out of the chain, and answers it: None exactly where the chain is empty.
    ///
    /// The chain stands for rows over these slots.
    pub fn take_front<T: Linked<LIST>>(&mut self, slots: &mut Slots<T>) -> Option<Key>
        requires { IsStanding T.links_of slots.old self.old }
        ensures key { result ≡ self.old.first }
        ensures empty { self.old.first ≡ None → slots.new ≡ slots.old }
        ensures chain { TakesFirst T.links_of slots.old slots.new self.old self.new }
        ensures links { RelinksSecond T.links_of T.with_links slots.old slots.new self.old }
    {
        let key = self.first?;
        self.unlink(slots, key);
        Some(key)
    }

    // Another row behind a row. Where there is none before it, it is the first.
    fn set_after<T: Linked<LIST>>(
        &mut self,
        slots: &mut Slots<T>,
        key: Option<Key>,
        after: Option<Key>,
    )
        ensures slots { slots.new ≡ changed slots.old key
            (λ value. T.with_links value (record (T.links_of value) { after = after })) }
        ensures first { self.new.first ≡ option_map_or (λ _. self.old.first) key after }
        ensures last { self.new.last ≡ self.old.last }
    {
        match key {
            Some(key) => {
                if let Some(value) = slots.get_mut(key) {
                    let links = value.links();
                    value.set_links(Links {
                        before: links.before,
                        after,
                    });
                }
            }
            None => self.first = after,
        }
    }

    // Another row before a row. Where there is none behind it, it is the last.
    fn set_before<T: Linked<LIST>>(
        &mut self,
        slots: &mut Slots<T>,
        key: Option<Key>,
        before: Option<Key>,
    )
        ensures slots { slots.new ≡ changed slots.old key
            (λ value. T.with_links value (record (T.links_of value) { before = before })) }
        ensures last { self.new.last ≡ option_map_or (λ _. self.old.last) key before }
        ensures first { self.new.first ≡ self.old.first }
    {
        match key {
            Some(key) => {
                if let Some(value) = slots.get_mut(key) {
                    let links = value.links();
                    value.set_links(Links {
                        before,
                        after: links.after,
                    });
                }
            }
            None => self.last = before,
        }
    }
}
