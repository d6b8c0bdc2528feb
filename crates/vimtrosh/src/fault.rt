// Why a command was not carried out.
use crate::expected::Expected;
use kernel::fault::ModelFault;

// A refused command leaves the model as it was, and the script goes on; at a bad line it ends.
#[derive(Clone, Copy)]
pub enum Fault {
    BadLine(Expected),
    Refused(ModelFault),
}
