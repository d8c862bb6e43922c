//! A condition while it is read.
ghost use Rattle.std.specs.Prelude.{◌≡◌, IfOk, IsOkUnless};
ghost use Rattle.icu_plurals_conditions.specs.Drafts.{drafted, empty_draft, first_of, with_item, with_relation, with_alternative, with_number};
ghost use Rattle.icu_plurals_conditions.specs.Drafts.{with_token, completed};
ghost use Rattle.icu_plurals_conditions.specs.Owned.{condition_in};

use crate::condition::{Alternative, Condition, Item, Operand, Relation};
use crate::error::RulesError;
use crate::lexer::Token;
use crate::progress::Progress;
use std::alloc::Global;
use std::mem;

/// What has been read of a condition.
#[derive(Drop)]
pub(crate) struct Draft {
    alternatives: Vec<Alternative>,
    relations: Vec<Relation>,
    operand: Operand,
    modulus: Option<u64>,
    negated: bool,
    ranges: Vec<Item>,
    item: Item,
}

fn first(item: Item) -> u64
    ensures { result ≡ first_of item }
{
    match item {
        Item::Value(value) => value,
        Item::Range(first, _) => first,
    }
}

impl Draft {
    pub(crate) fn new(alloc: Global) -> Self
        ensures { drafted result ≡ empty_draft }
    {
        Draft {
            alternatives: Vec::new(alloc),
            relations: Vec::new(alloc),
            operand: Operand::N,
            modulus: None,
            negated: false,
            ranges: Vec::new(alloc),
            item: Item::Value(0),
        }
    }

    fn end_item(&mut self) -> Result<(), RulesError>
        ensures ended { IfOk result (λ _. drafted self.new ≡ with_item (drafted self.old)) }
        ensures memory { IsOkUnless result RulesError.OutOfMemory }
    {
        self.ranges.push(self.item)?;
        Ok(())
    }

    fn end_relation(&mut self, alloc: Global) -> Result<(), RulesError>
        ensures ended { IfOk result (λ _. drafted self.new ≡ with_relation (drafted self.old)) }
        ensures memory { IsOkUnless result RulesError.OutOfMemory }
    {
        self.end_item()?;
        let relation = Relation {
            operand: self.operand,
            modulus: self.modulus,
            negated: self.negated,
            ranges: mem::replace(&mut self.ranges, Vec::new(alloc)),
        };
        self.relations.push(relation)?;
        Ok(())
    }

    fn end_alternative(&mut self, alloc: Global) -> Result<(), RulesError>
        ensures ended { IfOk result (λ _. drafted self.new ≡ with_alternative (drafted self.old)) }
        ensures memory { IsOkUnless result RulesError.OutOfMemory }
    {
        self.end_relation(alloc)?;
        let alternative = Alternative {
            relations: mem::replace(&mut self.relations, Vec::new(alloc)),
        };
        self.alternatives.push(alternative)?;
        Ok(())
    }

    fn set_number(&mut self, progress: Progress, number: u64)
        ensures { drafted self.new ≡ with_number progress number (drafted self.old) }
    {
        match progress {
            Progress::Divided => self.modulus = Some(number),
            Progress::Ranged => self.item = Item::Range(first(self.item), number),
            _ => self.item = Item::Value(number),
        }
    }

    /// Adds a token that may follow.
    pub(crate) fn take(
        &mut self,
        alloc: Global,
        progress: Progress,
        token: Token,
    ) -> Result<(), RulesError>
        ensures taken { IfOk result (λ _. drafted self.new
            ≡ with_token progress token (drafted self.old)) }
        ensures memory { IsOkUnless result RulesError.OutOfMemory }
    {
        match token {
            Token::Letter(operand) => {
                self.operand = operand;
                self.modulus = None;
            }
            Token::And => return self.end_relation(alloc),
            Token::Or => return self.end_alternative(alloc),
            Token::Number(number) => self.set_number(progress, number),
            Token::Equals => self.negated = false,
            Token::NotEquals => self.negated = true,
            Token::Comma => return self.end_item(),
            Token::Percent | Token::Dots | Token::Unknown => {}
        }
        Ok(())
    }

    /// The condition, where the text ends.
    pub(crate) fn finish(
        mut self,
        alloc: Global,
        progress: Progress,
    ) -> Result<Condition, RulesError>
        ensures completed { IfOk result (λ c. condition_in c ≡ completed progress (drafted self)) }
        ensures memory { IsOkUnless result RulesError.OutOfMemory }
    {
        if progress == Progress::Valued || progress == Progress::Ended {
            self.end_alternative(alloc)?;
        }
        let Draft { alternatives, .. } = self;
        Ok(Condition { alternatives })
    }
}
