//! The kinds of lines of a state that has one line each, and of members.
#![tactic(auto)]

mod amounts;
mod fixed;
mod governance;
mod heads;
mod proposals;

pub use amounts::{NotedFeesLines, PendingLines, TreasuryLines};
pub use book_kinds as of_book_kinds;
pub use fixed::{EndLines, NonePendingLines};
pub use governance::{CommitteeLines, ConstitutionLines, EnactedLines, MemberLines};
pub use heads::{HeadLines, NowLines, heads_are_of_checkpoints};
pub use proposals::{ProposalLines, ProposalRow, rows_are_proposals};
