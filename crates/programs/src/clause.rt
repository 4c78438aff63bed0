// A rule as sets: what its items ask for, whatever their order and however often they stand there.
ghost use Rattle.std.specs.Prelude.{◌≡◌, ◌^◌, []};
ghost use Rattle.atoms.specs.Sets.{clipped};
ghost use Rattle.programs.specs.Clauses.{gathered, with_item, clause_of, Says};
ghost use Rattle.programs.specs.Deriving.{fires, gives};
ghost use Rattle.programs.specs.Reducts.{spares, unbarred};

use atoms::{Interpretation, clipped, only};
use tables::table::{Item, Rule};

// The head follows where every needed atom is on, no barred atom is, and each aggregate whose number is in the set holds.
#[derive(Clone, Copy)]
pub struct Clause {
    head: u8,
    needed: Interpretation,
    barred: Interpretation,
    aggregates: u32,
}

// What clauses are held against: the atoms that are held, those that are possible, and the numbers of the aggregates that
// hold.
#[derive(Clone, Copy)]
pub struct Grounds {
    pub(super) held: Interpretation,
    pub(super) possible: Interpretation,
    pub(super) holding: u32,
}

// The set of the one number; there are 32 aggregates, so any other gives the empty set.
fn number_alone(number: u8) -> u32
    ensures { result ≡ clipped 32 (2 ^ number) }
{
    clipped(only(number), 32) as u32
}

impl Clause {
    // The head without a condition.
    pub(super) fn fact(head: u8) -> Clause
        ensures { result ≡ gathered head [] }
    {
        Clause {
            head,
            needed: 0,
            barred: 0,
            aggregates: 0,
        }
    }

    // The same under one more condition.
    fn with(self, item: Item) -> Clause
        ensures { result ≡ with_item self item }
    {
        match item {
            Item::Atom(atom) => Clause {
                needed: self.needed | only(atom),
                ..self
            },
            Item::NotAtom(atom) => Clause {
                barred: self.barred | only(atom),
                ..self
            },
            Item::Aggregate(number) => Clause {
                aggregates: self.aggregates | number_alone(number),
                ..self
            },
        }
    }

    // The rule's items as sets. No `From`: their order and their number are left out.
    pub fn of(rule: &Rule) -> Clause
        ensures is { result ≡ clause_of rule.now }
        ensures says { Says rule.now result }
    {
        rule.items
            .as_slice()
            .iter()
            .fold(Clause::fact(rule.head), |clause, item| clause.with(*item))
    }

    // Whether it bars no atom of the set.
    pub(super) fn spares(&self, set: Interpretation) -> bool
        ensures { result ≡ spares set self.now }
    {
        self.barred & set == 0
    }

    // The same without its barred atoms.
    pub(super) fn unbarred(self) -> Clause
        ensures { result ≡ unbarred self }
    {
        Clause { barred: 0, ..self }
    }

    // Whether its needed atoms are all held, none of its barred atoms is possible, and its aggregates are all among those
    // that hold.
    fn fires(&self, grounds: Grounds) -> bool
        ensures { result ≡ fires grounds self.now }
    {
        self.needed & grounds.held == self.needed
            && self.barred & grounds.possible == 0
            && self.aggregates & grounds.holding == self.aggregates
    }

    // Its head if it fires, and no atom otherwise.
    pub(super) fn share(&self, grounds: Grounds) -> Interpretation
        ensures { result ≡ gives grounds self.now }
    {
        if self.fires(grounds) {
            only(self.head)
        } else {
            0
        }
    }
}
