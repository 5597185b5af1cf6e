//! Hosts with rows of their own: an account book and a voucher drawer.
#![tactic(auto)]

pub mod account_book;
pub mod examples;
mod keeper;
pub mod voucher_drawer;
