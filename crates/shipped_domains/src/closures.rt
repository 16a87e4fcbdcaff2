ghost use Rattle.plan_rules.specs.Meaning.{KeyAnswers, TestAnswers, WeighAnswers};
ghost use Rattle.domain_words.specs.Numbers.{weight_cap};
ghost use Rattle.shipped_domains.specs.Meaning.{shipped_test, shipped_key, shipped_weight};

use plan_rules::{KeyBody, TestBody, WeighBody};

/// A test that answers what the book says of its number.
#[derive(Drop)]
pub struct ShippedTest {
    pub number: u16,
    pub body: TestBody,
    pub ghost callable: { TestBody.IsAlwaysCallable body },
    pub ghost answers: { TestAnswers (TestBody.post body) (shipped_test number) },
}

/// A key that answers what the book says of its number.
#[derive(Drop)]
pub struct ShippedKey {
    pub number: u16,
    pub body: KeyBody,
    pub ghost callable: { KeyBody.IsAlwaysCallable body },
    pub ghost answers: { KeyAnswers (KeyBody.post body) (shipped_key number) },
}

/// A weigher that answers what the book says of its number, and at most 10,000.
#[derive(Drop)]
pub struct ShippedWeigh {
    pub number: u16,
    pub body: WeighBody,
    pub ghost callable: { WeighBody.IsAlwaysCallable body },
    pub ghost answers: { WeighAnswers (WeighBody.post body) weight_cap (shipped_weight number) },
}

/// The closures that a domain's rules ask, in order.
#[derive(Drop)]
pub struct Closures {
    pub tests: Vec<ShippedTest>,
    pub keys: Vec<ShippedKey>,
    pub weighers: Vec<ShippedWeigh>,
}
