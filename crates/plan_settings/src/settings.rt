use crate::setting::{AcceptorKind, Construction, Early, Selector, Setting};
use plan_facts::{List, Memory};
use std::alloc::Global;

/// The most steps of a run.
pub const STEP_LIMIT: u32 = 1_000_000;

/// The greatest number of a limit on candidates or of a size of an acceptor.
pub const SIZE_LIMIT: u32 = 10_000;

/// The most selectors of a run.
pub const SELECTOR_LIMIT: usize = 8;

/// What a run is told.
#[derive(Drop)]
pub struct Settings {
    /// Where the draws of random numbers begin.
    pub seed: u64,
    /// The number of steps of the whole run: 0 to 1,000,000.
    pub steps: u32,
    /// A step's candidates have the numbers below this one: 1 to 10,000.
    pub select_limit: u32,
    /// A step ends when so many candidates are accepted: 1 to 10,000.
    pub accepted_limit: u32,
    pub pick_early: Early,
    pub acceptor: AcceptorKind,
    /// How many steps back the late score stands: 1 to 10,000.
    pub late_size: u32,
    /// For how many steps an entity that was moved stays tabu: 1 to 10,000.
    pub tabu_size: u32,
    /// For how many steps a threshold stands: 1 to 10,000.
    pub step_count_size: u32,
    /// 1 to 8 selectors, from which each candidate's is drawn; one may stand more than once.
    pub selectors: List<Selector>,
    pub construction: Construction,
}

impl Settings {
    ghost use Rattle.std.specs.Prelude.{◌≡◌, ◌↔◌, IfOk, IsNone, find, not};
    ghost use Rattle.plan_settings.specs.Settings.{usual_settings, is_in_range, settings_fault, IsInRange};

    /// The settings of a problem that names none.
    pub fn usual(alloc: Global) -> Result<Settings, Memory>
        ensures { IfOk result (λ settings. settings ≡ usual_settings) }
    {
        Ok(Settings {
            seed: 0,
            steps: 1_000,
            select_limit: 1_000,
            accepted_limit: 1,
            pick_early: Early::Never,
            acceptor: AcceptorKind::Late,
            late_size: 400,
            tabu_size: 7,
            step_count_size: 400,
            selectors: List::from_slice(alloc, &[Selector::Change, Selector::Swap])?,
            construction: Construction::FirstFit,
        })
    }

    /// The same settings.
    pub fn copy(&self, alloc: Global) -> Result<Settings, Memory>
        ensures { IfOk result (λ copy. copy ≡ self.now) }
    {
        Ok(Settings {
            selectors: self.selectors.copy(alloc)?,
            ..*self
        })
    }

    /// The first setting that is out of its range; none exactly where all are in range.
    pub fn fault(&self) -> Option<Setting>
        ensures fault { result ≡ settings_fault self.now }
        ensures none { IsNone result ↔ IsInRange self.now }
    {
        self.first_out(&Setting::ALL)
    }

    /// The first of these settings that is out of its range.
    fn first_out(&self, settings: &[Setting]) -> Option<Setting>
        ensures { result ≡ find (λ setting. not (is_in_range self.now setting)) settings.now }
    {
        settings
            .iter()
            .copied()
            .find(|setting| !self.is_in_range(*setting))
    }

    fn is_in_range(&self, setting: Setting) -> bool
        ensures { result ≡ is_in_range self.now setting }
    {
        match setting {
            Setting::Seed | Setting::PickEarly | Setting::Acceptor | Setting::Construction => true,
            Setting::Steps => self.steps <= STEP_LIMIT,
            Setting::SelectLimit => is_size(self.select_limit),
            Setting::AcceptedLimit => is_size(self.accepted_limit),
            Setting::LateSize => is_size(self.late_size),
            Setting::TabuSize => is_size(self.tabu_size),
            Setting::StepCountSize => is_size(self.step_count_size),
            Setting::Selectors => matches!(self.selectors.len(), 1..=SELECTOR_LIMIT),
        }
    }
}

ghost use Rattle.std.specs.Prelude.{◌≡◌};
ghost use Rattle.plan_settings.specs.Settings.{is_size};

/// Whether the number is 1 to 10,000.
fn is_size(number: u32) -> bool
    ensures { result ≡ is_size number }
{
    matches!(number, 1..=SIZE_LIMIT)
}
