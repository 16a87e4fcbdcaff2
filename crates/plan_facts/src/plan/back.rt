//! Changes that are taken back, which needs no memory.

ghost use Rattle.std.specs.Prelude.{◌≡◌, ◌<◌, List, Option, IsTrue, length, ℕ, ℤ};
ghost use Rattle.plan_facts.specs.Plan.{IsPlan, IsRecordOf, PlanView, class_of, is_live};
ghost use Rattle.plan_facts.specs.PlanChanges.{with_fact};
ghost use Rattle.plan_facts.specs.PlanBack.{WasMadeLast, with_raw, without_newest};

use super::Plan;
use crate::record::Raw;
use crate::table::count_missing;

impl Plan {
    /// Puts a record, which fits its class, in the place of the live one with its id.
    pub fn restore(&mut self, class: u8, raw: Raw)
        requires there { IsTrue (is_live self.old class raw.id) }
        requires fits { IsRecordOf self.old (class_of self.old class) raw }
        ensures now { self.new ≡ with_raw self.old class raw }
        ensures sound { IsPlan self.new }
    {
        let table = &mut self.tables[class as usize];
        let missing = count_missing(table.nullables(), raw.values.as_slice()) as u32;
        let was = table.replace(raw);
        let before = count_missing(table.nullables(), was.values.as_slice()) as u32;
        self.unplaced = self.unplaced + missing - before;
    }

    /// Takes the newest fact of a class back, which was the last that was made: the plan is as before it.
    pub fn take_back_newest(&mut self, class: u8)
        requires { WasMadeLast self.old class }
        ensures now { self.new ≡ without_newest self.old class }
        ensures before { (before : PlanView) (fields : List ℤ) (values : List (Option ℕ)) →
            class < length before.classes → self.old ≡ with_fact before class fields values → self.new ≡ before }
        ensures sound { IsPlan self.new }
    {
        let table = &mut self.tables[class as usize];
        let missing = table.last_missing() as u32;
        table.take_last_back();
        self.made -= 1;
        self.unplaced -= missing;
    }
}
