//! The layout of a super page: which of its bytes are guards, metadata and payload, and where its partition pages
//! and their records lie.
//!
//! A super page, its guards and the metadata page inside the first partition page are PartitionAlloc's, as is a
//! partition page of four system pages. The size of a system page, the order of the system pages in the first
//! partition page and the 32 bytes of a record are this project's profile.
#![tactic(auto)]

mod bytes;
mod laws;
mod pages;

pub use bytes::{Kind, kind_of};
pub use laws::{bytes_have_one_kind, pages_lie_apart, payload_is_whole_pages, records_lie_apart};
pub use pages::{
    PARTITION_PAGE, SUPER_PAGE, SYSTEM_PAGE, meta_start, page_of, page_start, super_page_of,
    supers_for,
};
