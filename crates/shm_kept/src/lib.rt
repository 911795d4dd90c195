//! What a site maps is kept, whatever comes to its process: the theorems, each the contract of a function without parameters and with an
//! empty body.
#![tactic(auto)]

mod laws;

pub use laws::{
    a_map_gives_the_sites_bytes, a_page_that_is_mapped_to_write_is_mapped_once,
    a_site_that_comes_back_keeps_what_it_maps, what_a_site_maps_is_kept,
    what_is_brought_is_the_sites,
};
