//! Tests of files, kernels and plans where neither a contract nor a session shows anything: who owns samples, in which order the
//! steps of plans stand, what room results and images keep, how few bits levels are said to have, and that calls succeed at shapes
//! that no session asks for. The modules `files`, `makers`, `medians`, `results` and `sharing` make a call once more where memory
//! was refused, with what it was lent, so their tests pass whichever allocation is refused.
//!
//! ```text
//! rt test     // in this folder; then `make memory` refuses each allocation of those modules in turn
//! ```
#![tactic(auto)]

/// What a call gives, made once more where it was refused for want of memory.
#[cfg(test)]
macro_rules! once_more {
    ($rt:expr, $call:expr) => {
        match $call {
            Ok(made) => made,
            Err(_) => match $call {
                Ok(made) => made,
                Err(_) => panic!($rt; "there is memory"),
            },
        }
    };
    ($rt:expr, $refused:pat, $call:expr) => {
        match $call {
            Ok(made) => made,
            Err($refused) => match $call {
                Ok(made) => made,
                Err(_) => panic!($rt; "there is memory"),
            },
            Err(_) => panic!($rt; "nothing is wrong but the memory"),
        }
    };
}

#[cfg(test)]
mod file_rooms;
#[cfg(test)]
mod files;
#[cfg(test)]
mod given;
#[cfg(test)]
mod makers;
#[cfg(test)]
mod marks;
#[cfg(test)]
mod medians;
#[cfg(test)]
mod orders;
#[cfg(test)]
mod owners;
#[cfg(test)]
mod results;
#[cfg(test)]
mod rising;
#[cfg(test)]
mod rooms;
#[cfg(test)]
mod shapes;
#[cfg(test)]
mod sharing;
#[cfg(test)]
mod sizes;
