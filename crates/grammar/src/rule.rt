// A rule line: a head alone, or a head, `if` and items.
ghost use Rattle.std.specs.Prelude.{◌≡◌};
ghost use Rattle.text.specs.Words.{said};
ghost use Rattle.grammar.specs.declared.rule.RuleState.TheVariants.{Start};
ghost use Rattle.grammar.specs.declared.wrong.Wrong.TheVariants.{Misplaced};
ghost use Rattle.grammar.specs.Names.{known};
ghost use Rattle.grammar.specs.Rules.{with_item, item_begun, rule_next, rule_done};

use super::line::{LineKind, Standing};
use super::names::{Names, natural};
use super::rows;
use super::wrong::Wrong;
use tables::table::{Item, Rule};
use text::word::{Key, Word};

#[derive(Clone, Copy)]
pub enum RuleState {
    Start,
    Headed(u8),
    Items(Rule),
    Negated(Rule),
    Loaded(Rule),
}

// A rule line, by the names of the atoms, where so many loads are announced.
#[derive(Clone, Copy)]
pub struct RuleLine<'a> {
    pub names: Names<'a>,
    pub loads: u8,
}

// The rule with one item more.
fn with_item(rule: Rule, item: Item) -> Rule
    ensures { result ≡ with_item rule item }
{
    Rule {
        items: rows::with_item(rule.items, item),
        ..rule
    }
}

impl RuleLine<'_> {
    // An item: `not` and a name, `load` and a number, or a name.
    fn begin_item(&self, rule: Rule, word: Word) -> Result<RuleState, Wrong>
        ensures { result ≡ item_begun (known self.now.names) rule (said word.entry).0 }
    {
        match word.key() {
            Some(Key::Not) => Ok(RuleState::Negated(rule)),
            Some(Key::Load) => Ok(RuleState::Loaded(rule)),
            _ => {
                let atom = self.names.wanted(word)?;
                Ok(RuleState::Items(with_item(rule, Item::Atom(atom))))
            }
        }
    }
}

impl LineKind for RuleLine<'_> {
    type State = RuleState;

    type Row = Rule;

    ghost begins = { Start };

    ghost missing = { Misplaced };

    ghost follows = { λ line above from. rule_next (known line.names) line.loads };

    ghost gives = { rule_done };

    fn start(&self) -> RuleState {
        RuleState::Start
    }

    fn next(&self, _at: &Standing<Rule>, state: RuleState, word: Word) -> Result<RuleState, Wrong> {
        let RuleLine { names, loads } = *self;
        match state {
            RuleState::Start => {
                let head = names.wanted(word)?;
                Ok(RuleState::Headed(head))
            }
            RuleState::Headed(head) if word.key() == Some(Key::If) => {
                Ok(RuleState::Items(Rule::new(head)))
            }
            RuleState::Items(rule) if rule.items.has_room() => self.begin_item(rule, word),
            RuleState::Headed(_) | RuleState::Items(_) => Err(Wrong::Misplaced),
            RuleState::Negated(rule) => {
                let atom = names.wanted(word)?;
                Ok(RuleState::Items(with_item(rule, Item::NotAtom(atom))))
            }
            RuleState::Loaded(rule) => {
                let number = natural(word).ok_or(Wrong::BadNumber)?;
                if number >= loads {
                    return Err(Wrong::BadNumber);
                }
                Ok(RuleState::Items(with_item(rule, Item::Aggregate(number))))
            }
        }
    }

    fn done(&self, state: RuleState) -> Result<Rule, Wrong> {
        match state {
            RuleState::Headed(head) => Ok(Rule::new(head)),
            RuleState::Items(rule) if !rule.items.is_empty() => Ok(rule),
            _ => Err(Wrong::Misplaced),
        }
    }
}
