//! How what concerns a page goes out.
ghost use Rattle.std.specs.Prelude.{◌≡◌, ◌+◌, ◌<◌, ◌≤◌, [], ◌∷◌, true, if◌then◌else◌, length, map};
ghost use Rattle.shm_place.specs.SiteSet.{has};
ghost use Rattle.shm_manager.specs.Orders.{members, orders_of};
ghost use Rattle.shm_model.specs.Book.{ClearTo};
ghost use Rattle.shm_model.specs.Transfer as model;
ghost use Rattle.shm_site.specs.Site.{Told};

use shm_manager::Orders;
use shm_parts::{EntryNote, Envelope, Outbox, to_site};
use shm_place::{PageId, SiteId, SiteSet};
use std::alloc::Allocator;

/// Sends the orders of the page's transaction with this number. Room was made for them.
pub(crate) fn send_orders<A: Allocator + Copy, O: Outbox<Envelope<A>>>(
    me: SiteId,
    page: &PageId,
    number: u64,
    orders: Orders,
    outbox: &mut O,
)
    requires { length (orders_of orders) ≤ O.room outbox.old }
    ensures { Told O.posted outbox.old outbox.new (map (model.order_envelope me page.now number) (orders_of orders)) }
{
    match orders {
        Orders::Nothing => {}
        Orders::Hand {
            owner,
            requester,
            kind,
        } => {
            let hand = EntryNote::Hand {
                number,
                kind,
                to: requester,
            };
            outbox.push(to_site(me, owner, page, hand));
        }
        Orders::Clear(sites) => send_clears(me, page, number, sites, outbox),
    }
}

/// Tells each site of the set to give up its copy, in rising order.
fn send_clears<A: Allocator + Copy, O: Outbox<Envelope<A>>>(
    me: SiteId,
    page: &PageId,
    number: u64,
    sites: SiteSet,
    outbox: &mut O,
)
    requires { length (members sites) ≤ O.room outbox.old }
    ensures { Told O.posted outbox.old outbox.new (map (λ site. model.order_envelope me page.now number (ClearTo site)) (members sites)) }
{
    'sites: for site in 0..16u32 {
        send_clear(me, page, number, sites, SiteId(site), outbox);
    }
}

/// Tells the site to give up its copy, where it is one of these.
fn send_clear<A: Allocator + Copy, O: Outbox<Envelope<A>>>(
    me: SiteId,
    page: &PageId,
    number: u64,
    sites: SiteSet,
    site: SiteId,
    outbox: &mut O,
)
    requires { has sites site ≡ true → 0 < O.room outbox.old }
    ensures told { Told O.posted outbox.old outbox.new
        (map (λ site. model.order_envelope me page.now number (ClearTo site)) (if has sites site then site ∷ [] else [])) }
    ensures room { O.room outbox.old ≤ O.room outbox.new + length (if has sites site then site ∷ [] else []) }
{
    if sites.contains(site) {
        outbox.push(to_site(me, site, page, EntryNote::Clear(number)));
    }
}
