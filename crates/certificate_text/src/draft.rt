//! What has been read of a certificate.

use certificate_claims::{Certificate, Refutation, Step};
use lists::Items;
use set_lists::NumSet;

/// What the lines so far say.
#[derive(Drop)]
pub(crate) enum Draft {
    /// Nothing: there was no line.
    Nothing,
    /// The header, and these sets.
    SetsRead(Items<NumSet>),
    /// The sets, the refutations that are whole, and the steps of the one that is being read.
    StepsRead(Items<NumSet>, Items<Refutation>, Items<Step>),
    /// All lines, up to `end`.
    AllRead(Certificate),
}
