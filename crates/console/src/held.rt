// A plan of the input that is held.
ghost use Rattle.std.specs.Prelude.{◌≡◌, true, ◌≤◌, length};
ghost use Rattle.cqf.specs.Form.{form_from};
ghost use Rattle.cqf.specs.Plan.{valid_plan};
ghost use Rattle.plan_reading.specs.Reading.{max_bytes};
ghost use Rattle.plan_reading.specs.Saved.{form_bytes};
ghost use Rattle.tables.specs.Tables.{plan_of};

use loading::Loaded;
use tables::Planner;

// It is valid, and saved as no more bytes than a plan may have.
#[derive(Clone, Copy)]
pub struct HeldPlan {
    pub planner: Planner,
    pub loaded: Loaded,
    ghost valid: { valid_plan (plan_of planner) ≡ true },
    ghost short: { length (form_bytes (form_from planner.form) (plan_of planner)) ≤ max_bytes },
}
