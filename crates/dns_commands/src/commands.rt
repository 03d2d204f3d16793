//! The commands, one file each.
pub mod check;
pub mod check_configuration;
pub mod compare;
pub mod diff;
pub mod dump;
pub mod dump_at;
pub mod history;
pub mod init;
pub mod load;
pub mod migrate;
pub mod replay;
pub mod verify;
