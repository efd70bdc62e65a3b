//! Tests of the devices, of the disk in memory, of records, of the journal and of checkpoints.
#![tactic(auto)]

#[cfg(test)]
mod checkpoint_store_tests;
#[cfg(test)]
mod memory_disk_tests;
#[cfg(test)]
mod outside_io_tests;
#[cfg(test)]
mod posting_journal_tests;
#[cfg(test)]
mod record_codec_tests;
#[cfg(test)]
mod reopening_tests;
