ghost use Rattle.std.specs.Prelude.{◌≡◌, ◌<◌, ◌^◌, IsTrue, vec_len};
ghost use Rattle.plan_facts.specs.Schema.{is_name};

use plan_facts::{Schema, Text};
use plan_moves::MoveMaker;
use plan_rules::Rules;

/// A domain: its name, its classes, its rules over them, and its makers of moves.
pub struct Domain<B> {
    /// 1 to 32 bytes of a-z, 0-9 and `_`, with a letter first.
    pub name: Text,
    pub schema: Schema,
    pub rules: Rules<B>,
    /// Fewer than 2^32.
    pub makers: Vec<Box<dyn MoveMaker>>,
    pub ghost named: { IsTrue (is_name name) },
    pub ghost over: { rules.schema ≡ schema },
    pub ghost few_makers: { vec_len makers < 2 ^ 32 },
}

// Written out, so that its owners let go of it by one call.
impl<B> Drop for Domain<B> {
    fn drop(self) {
        let Domain {
            name,
            schema,
            rules,
            makers,
        } = self;
        drop(name);
        drop(schema);
        drop(rules);
        drop(makers);
    }
}

impl<B> Domain<B> {
    /// A domain of rules that were built on an equal schema.
    pub fn new(
        name: Text,
        schema: Schema,
        rules: Rules<B>,
        makers: Vec<Box<dyn MoveMaker>>,
    ) -> Domain<B>
        requires named { IsTrue (is_name name) }
        requires over { rules.schema ≡ schema }
        requires few_makers { vec_len makers < 2 ^ 32 }
        ensures name { result.name ≡ name }
        ensures schema { result.schema ≡ schema }
        ensures rules { result.rules ≡ rules }
        ensures makers { result.makers ≡ makers }
    {
        Domain {
            name,
            schema,
            rules,
            makers,
        }
    }
}
