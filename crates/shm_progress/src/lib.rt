//! Progress: deliveries end, calls and purges are served, transactions end, and faults are served. Theorems about Leddwyfan's
//! definitions, each the contract of a function without parameters and with an empty body; ten fair schedules that the definitions
//! compute; and, of the code, a world that is brought to rest.
#![tactic(auto)]

mod call_laws;
mod delivery_laws;
mod purge_laws;
mod queue_laws;
mod random_schedules;
mod request_laws;
mod round_laws;
mod settlement;
mod transaction_laws;

pub use call_laws::{calls_end, calls_go_on};
pub use delivery_laws::{
    deliveries_are_few, deliveries_end, each_delivery_counts, worlds_come_to_rest,
};
pub use purge_laws::{purges_end, purges_go_on};
pub use queue_laws::none_waits_for_nothing;
pub use random_schedules::{
    eighth_schedule, fifth_schedule, first_schedule, fourth_schedule, ninth_schedule,
    second_schedule, seventh_schedule, sixth_schedule, tenth_schedule, third_schedule,
};
pub use request_laws::{requests_end, requests_go_on, started_requests_are_served};
pub use round_laws::{
    faults_are_served, nothing_stops_a_site_for_good, rounds_exist, rounds_settle_calls_and_purges,
    rounds_settle_requests, rounds_settle_transactions, second_rounds_settle_requests,
};
pub use settlement::{Settled, deliver_all, oldest_from, settle};
pub use transaction_laws::{transactions_end, transactions_go_on};
