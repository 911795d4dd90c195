//! Calls under numbers, at the site and at the home, and attachments.
mod access;
mod attachments;
mod home;
mod outstanding_call;
