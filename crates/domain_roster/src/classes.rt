ghost use Rattle.std.specs.Prelude.{◌≡◌, IfOk};
ghost use Rattle.domain_roster.specs.Tables.{roster_classes, open_classes, classes_where};
ghost use Rattle.domain_roster.specs.Tables.{employee_class, shift_class, leave_class, wish_class};

use crate::names::EMPLOYEE;
use domain_words::{Variable, class};
use plan_facts::{ClassDef, Kind, List, Memory, Schema};
use std::alloc::Global;

/// The roster's classes: employees, shifts, leaves and wishes.
pub fn schema(alloc: Global) -> Result<Schema, Memory>
    ensures { IfOk result (λ schema. schema ≡ roster_classes) }
{
    match Schema::build(classes(alloc, false)?) {
        Ok(schema) => Ok(schema),
        Err(_) => unreachable!(),
    }
}

/// The roster's classes, where shifts may stay open: their worker may stay null.
pub fn open_schema(alloc: Global) -> Result<Schema, Memory>
    ensures { IfOk result (λ schema. schema ≡ open_classes) }
{
    match Schema::build(classes(alloc, true)?) {
        Ok(schema) => Ok(schema),
        Err(_) => unreachable!(),
    }
}

/// The classes, in order; the worker of a shift may stay null or not.
fn classes(alloc: Global, nullable: bool) -> Result<List<ClassDef>, Memory>
    ensures { IfOk result (λ classes. classes ≡ classes_where nullable) }
{
    let mut classes = List::new(alloc);
    classes.push(employee(alloc)?)?;
    classes.push(shift(alloc, nullable)?)?;
    classes.push(leave(alloc)?)?;
    classes.push(wish(alloc)?)?;
    Ok(classes)
}

/// One who works: the skill, and how many shifts there may be.
fn employee(alloc: Global) -> Result<ClassDef, Memory>
    ensures { IfOk result (λ class. class ≡ employee_class) }
{
    let fields = [("skill", Kind::Name), ("max", Kind::Number)];
    class(alloc, "employee", &fields, &[])
}

/// A shift, whose worker is planned, and may stay null or not.
fn shift(alloc: Global, nullable: bool) -> Result<ClassDef, Memory>
    ensures { IfOk result (λ class. class ≡ shift_class nullable) }
{
    let fields = [
        ("day", Kind::Number),
        ("start", Kind::Number),
        ("end", Kind::Number),
        ("skill", Kind::Name),
    ];
    let worker = Variable {
        name: "worker",
        values: EMPLOYEE,
        nullable,
    };
    class(alloc, "shift", &fields, &[worker])
}

/// A day on which an employee is on leave.
fn leave(alloc: Global) -> Result<ClassDef, Memory>
    ensures { IfOk result (λ class. class ≡ leave_class) }
{
    let fields = [("employee", Kind::Number), ("day", Kind::Number)];
    class(alloc, "leave", &fields, &[])
}

/// A day on which an employee wishes to work.
fn wish(alloc: Global) -> Result<ClassDef, Memory>
    ensures { IfOk result (λ class. class ≡ wish_class) }
{
    let fields = [("employee", Kind::Number), ("day", Kind::Number)];
    class(alloc, "wish", &fields, &[])
}
