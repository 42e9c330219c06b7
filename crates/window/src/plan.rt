//! What is to be done for a command or a skip.
use crate::numbered_content::NumberedContent;
use crate::verdict::Verdict;
use points::Listing;

/// What is to be done for one command or skip.
#[derive(Drop)]
pub struct Plan {
    /// The next number of the panel afterwards.
    pub next: u64,
    /// The commands to act on, by rising number.
    pub apply: Listing<NumberedContent>,
    /// The command to park.
    pub park: Option<NumberedContent>,
    pub verdict: Verdict,
}
