use plan_facts::{List, Memory, Plan, Raw, Schema};
use plan_moves::Touch;
use plan_recalc::Totals;
use plan_reports::{Line, write_line};
use plan_rules::{Match, RuleDef};
use plan_scores::Score;
use plan_search::Placed;
use std::alloc::Global;

/// Writes lines under the names of a domain's classes and rules.
#[derive(Drop)]
pub struct Report<'a> {
    pub schema: &'a Schema,
    pub rules: &'a [RuleDef],
}

impl<'a> Report<'a> {
    ghost use Rattle.std.specs.Prelude.{◌≡◌, ◌≤◌, ◌∷◌, [], length, map};
    ghost use Rattle.plan_rules.specs.Totals.{impact_sum};
    ghost use Rattle.plan_search.specs.RunLines.{entity_lines, match_line, matches_lines, place_line, record_line, rule_line, stuck_lines, sums_lines};
    ghost use Rattle.plan_session.specs.Writes.{Writes};

    /// Appends a line.
    pub fn line(&self, line: &Line, out: &mut Vec<u8>) -> Result<(), Memory>
        ensures { Writes self.now result out.old.items out.new.items (line.now ∷ []) }
    {
        write_line(self.schema, self.rules, line, out)
    }

    /// Appends some lines.
    pub fn lines(&self, lines: &[Line], out: &mut Vec<u8>) -> Result<(), Memory>
        ensures { Writes self.now result out.old.items out.new.items lines.now }
    {
        for line in lines {
            self.line(line, out)?;
        }
        Ok(())
    }

    /// Appends a line for each placing.
    pub fn placed(&self, alloc: Global, placed: &[Placed], out: &mut Vec<u8>) -> Result<(), Memory>
        ensures { Writes self.now result out.old.items out.new.items (map place_line placed.now) }
    {
        for one in placed {
            let line = Line::Place {
                class: one.class,
                id: one.id,
                values: one.values.copy(alloc)?,
                score: one.score,
            };
            self.line(&line, out)?;
        }
        Ok(())
    }

    /// Appends the line of the entity at which placing was stuck, if any.
    pub fn stuck(&self, stuck: Option<Touch>, out: &mut Vec<u8>) -> Result<(), Memory>
        ensures { Writes self.now result out.old.items out.new.items (stuck_lines stuck) }
    {
        match stuck {
            Some(entity) => {
                let line = Line::Stuck {
                    class: entity.class,
                    id: entity.id,
                };
                self.line(&line, out)
            }
            None => Ok(()),
        }
    }

    /// Appends a line for each entity of a class.
    fn class(
        &self,
        alloc: Global,
        class: u8,
        facts: &[Raw],
        out: &mut Vec<u8>,
    ) -> Result<(), Memory>
        ensures { Writes self.now result out.old.items out.new.items (map (record_line class) facts.now) }
    {
        for raw in facts {
            let line = Line::Entity {
                class,
                id: raw.id,
                values: raw.values.copy(alloc)?,
            };
            self.line(&line, out)?;
        }
        Ok(())
    }

    /// Appends a line for each entity of a plan, in entity order.
    pub fn entities(&self, alloc: Global, plan: &Plan, out: &mut Vec<u8>) -> Result<(), Memory>
        ensures { Writes self.now result out.old.items out.new.items (entity_lines plan.now) }
    {
        for class in 0..plan.classes() {
            if !plan.ranges(class).is_empty() {
                self.class(alloc, class, plan.facts(class), out)?;
            }
        }
        Ok(())
    }

    /// Appends the line of a rule: how many matches it has, and the sum of their impacts.
    fn rule(
        &self,
        rule: u8,
        matches: &[Match],
        impact: Score,
        out: &mut Vec<u8>,
    ) -> Result<(), Memory>
        requires { impact ≡ impact_sum matches.now }
        ensures { Writes self.now result out.old.items out.new.items (rule_line rule matches.now ∷ []) }
    {
        let line = Line::Rule {
            rule,
            count: matches.len() as u64,
            impact,
        };
        self.line(&line, out)
    }

    /// Appends a line for each match.
    fn matches(&self, matches: &[Match], out: &mut Vec<u8>) -> Result<(), Memory>
        ensures { Writes self.now result out.old.items out.new.items (map match_line matches.now) }
    {
        for one in matches {
            let line = Line::Match {
                impact: one.impact,
                row: one.row.copy()?,
            };
            self.line(&line, out)?;
        }
        Ok(())
    }

    /// Appends the line of each rule and of each of its matches.
    pub fn rules(&self, totals: &Totals, out: &mut Vec<u8>) -> Result<(), Memory>
        requires { length totals.now.matches ≤ 32 }
        ensures { Writes self.now result out.old.items out.new.items (matches_lines totals.now.matches) }
    {
        let matches = totals.matches.as_slice();
        let impacts = totals.impacts.as_slice();
        for rule in 0..matches.len() {
            let of_rule = matches[rule].as_slice();
            self.rule(rule as u8, of_rule, impacts[rule], out)?;
            self.matches(of_rule, out)?;
        }
        Ok(())
    }

    /// Appends the line of each rule alone.
    pub fn sums(&self, totals: &Totals, out: &mut Vec<u8>) -> Result<(), Memory>
        requires { length totals.now.matches ≤ 32 }
        ensures { Writes self.now result out.old.items out.new.items (sums_lines totals.now.matches) }
    {
        let matches = totals.matches.as_slice();
        let impacts = totals.impacts.as_slice();
        for rule in 0..matches.len() {
            self.rule(rule as u8, matches[rule].as_slice(), impacts[rule], out)?;
        }
        Ok(())
    }
}
