// A model that stands, or one with an open trial.

use kernel::model::{Standing, Trial};

pub mod changes;

// A trial is not let go: `close` spends the state.
pub enum State {
    Standing(Standing),
    Trial(Trial),
}
