// A session: the commands of a script done one by one on a pile that they make.

#![tactic(auto)]

mod making;
pub mod reply;
pub mod session;
