// Pages together: where a page stands in the image, and the walk of check, so far over chains and the free list. It knows nothing of refusals.

#![tactic(auto)]

pub mod image; // a page of the image
pub mod meeting; // a page met once: roles, the work area, and why a walk stops
pub mod walk; // the walk over chains and the free list
