// What a sheet says: its atoms' names, its aggregates, its rules and its relay lines.
// An atom is told by its number, which is its name's row; an aggregate by its row.
ghost use Rattle.std.specs.Prelude.{◌≡◌, []};
ghost use Rattle.tables.specs.Tables.{zero_place, zero_entry, zero_item, zero_aggregate, zero_rule, zero_relay, aggregate_of, rule_of, relay_of, table_of};

use super::rows::Rows;

// Where a name stands in the sheet's text.
#[derive(Clone, Copy, Debug, PartialEq, Eq)]
pub struct Place {
    pub from: u16,
    pub len: u8,
}

// What an aggregate's sum is held against.
#[derive(Clone, Copy, Debug, PartialEq, Eq)]
pub enum Comparison {
    AtMost,
    AtLeast,
    Equal,
    Unequal,
}

#[derive(Clone, Copy, Debug, PartialEq, Eq)]
pub enum Kind {
    Sum,
    Count,
}

// An atom or its negation with its weight; in a count every weight is 1. That it is negated says nothing of whether the
// atom or the weight is there, so it is no `Option`.
#[derive(Clone, Copy, Debug, PartialEq, Eq)]
pub struct Entry {
    pub weight: i16,
    pub atom: u8,
    pub negated: bool,
}

// The weights of the entries that hold, summed, against a limit.
#[derive(Clone, Copy)]
pub struct Aggregate {
    pub kind: Kind,
    pub comparison: Comparison,
    pub limit: i32,
    pub entries: Rows<Entry, 16>,
}

// One condition of a rule.
#[derive(Clone, Copy, Debug, PartialEq, Eq)]
pub enum Item {
    Atom(u8),
    NotAtom(u8),
    Aggregate(u8),
}

// An atom and the conditions that it follows from, taken together.
#[derive(Clone, Copy)]
pub struct Rule {
    pub head: u8,
    pub items: Rows<Item, 16>,
}

// An atom and those that attack it.
#[derive(Clone, Copy)]
pub struct RelayLine {
    pub atom: u8,
    pub attackers: Rows<u8, 64>,
}

// A whole sheet; `width` says how many atoms it has.
#[derive(Clone, Copy)]
pub struct Table {
    pub width: u8,
    pub names: Rows<Place, 64>,
    pub aggregates: Rows<Aggregate, 32>,
    pub rules: Rows<Rule, 128>,
    pub relays: Rows<RelayLine, 64>,
}

impl Place {
    // What stands in a row of names that is not in use. No `Default`, here and below: as a value it means nothing.
    pub fn zero() -> Place
        ensures { result ≡ zero_place }
    {
        Place { from: 0, len: 0 }
    }
}

impl Entry {
    // What stands in a row of entries that is not in use.
    pub fn zero() -> Entry
        ensures { result ≡ zero_entry }
    {
        Entry {
            weight: 0,
            atom: 0,
            negated: false,
        }
    }
}

impl Item {
    // What stands in a row of items that is not in use.
    pub fn zero() -> Item
        ensures { result ≡ zero_item }
    {
        Item::Atom(0)
    }
}

impl Aggregate {
    // An aggregate with no entries yet.
    pub fn new(kind: Kind, comparison: Comparison, limit: i32) -> Aggregate
        ensures { result ≡ aggregate_of kind comparison limit [] }
    {
        Aggregate {
            kind,
            comparison,
            limit,
            entries: Rows::new(Entry::zero()),
        }
    }

    // What stands in a row of aggregates that is not in use.
    pub fn zero() -> Aggregate
        ensures { result ≡ zero_aggregate }
    {
        Aggregate::new(Kind::Sum, Comparison::AtMost, 0)
    }
}

impl Rule {
    // A rule with no items yet.
    pub fn new(head: u8) -> Rule
        ensures { result ≡ rule_of head [] }
    {
        Rule {
            head,
            items: Rows::new(Item::zero()),
        }
    }

    // What stands in a row of rules that is not in use.
    pub fn zero() -> Rule
        ensures { result ≡ zero_rule }
    {
        Rule::new(0)
    }
}

impl RelayLine {
    // A relay line with no attackers yet.
    pub fn new(atom: u8) -> RelayLine
        ensures { result ≡ relay_of atom [] }
    {
        RelayLine {
            atom,
            attackers: Rows::new(0),
        }
    }

    // What stands in a row of relay lines that is not in use.
    pub fn zero() -> RelayLine
        ensures { result ≡ zero_relay }
    {
        RelayLine::new(0)
    }
}

impl Default for Table {
    ghost is_default = { λ table. table ≡ table_of 1 [] [] [] [] };

    fn default() -> Table {
        Table::fresh()
    }
}

impl Table {
    // The table of no sheet: one atom, and nothing else.
    pub fn fresh() -> Table
        ensures { result ≡ table_of 1 [] [] [] [] }
    {
        Table {
            width: 1,
            names: Rows::new(Place::zero()),
            aggregates: Rows::new(Aggregate::zero()),
            rules: Rows::new(Rule::zero()),
            relays: Rows::new(RelayLine::zero()),
        }
    }
}
