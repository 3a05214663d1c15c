//! A panel as plain values, what each of its calls answers and makes of it, and what it makes of its board's memory. These are
//! definitions (in `specs/`) that the panel's contracts cite; there is no code here.
#![tactic(auto)]
