//! What holds of the definitions: laws and worked examples. Each is a public function whose contract is the law and
//! whose body is empty.
#![tactic(auto)]

pub mod examples;
pub mod laws;
pub mod limit_laws;
pub mod machine_examples;
pub mod machine_laws;
