//! What a site's machine maps is kept: no page is mapped at a site whose right to it was taken.
ghost use Rattle.std.specs.Prelude.{◌≡◌, ◌≢◌, ℕ, IsTrue, List, None, Some, slice_get, take};
ghost use Rattle.shm_place.specs.declared.page_id.PageId.{PageId};
ghost use Rattle.shm_place.specs.Page.{in_limits};
ghost use Rattle.shm_model.specs.declared.request_kind.Kind.{Kind};
ghost use Rattle.shm_model.specs.declared.request_kind.Kind.TheVariants.{Write};
ghost use Rattle.shm_model.specs.Access.{Place};
ghost use Rattle.shm_model.specs.Memory.{Coherent};
ghost use Rattle.shm_model.specs.World.{World};
ghost use Rattle.shm_wire.specs.Unmaps.{UnmapAsk};
ghost use Rattle.shm_wire.specs.declared.mapping_text.Mapping.{Mapping};
ghost use Rattle.shm_process.specs.Desk.{Desk, given_up, on_bytes};
ghost use Rattle.shm_process.specs.Mapped.{mapped_at};
ghost use Rattle.shm_process.specs.Node.{Node, new_node};
ghost use Rattle.shm_process.specs.Recorded.{Entry, Event, all_steps, entries_of, kept, replayed_all};
ghost use Rattle.shm_kept.specs.Brought.{IsBringable, IsGivenUp};
ghost use Rattle.shm_kept.specs.Bytes.{GivesBytes, IsMappable};
ghost use Rattle.shm_kept.specs.Kept.{DidKeep, Happening, IsKept, KeptThrough, after_happenings};

/// Whatever comes to a site, it has at least the mapped right to each page that its machine maps, through an attachment that names the
/// page's segment: at first, after each step that it makes of what comes, and after all that happens to its desk.
pub fn what_a_site_maps_is_kept()
    ensures new { (sites me pages : ℕ) → IsKept (new_node sites me pages) }
    ensures steps { (desk : Desk) (bytes : List ℕ) → desk.row ≡ None → IsKept desk.node → DidKeep desk (on_bytes desk bytes) }
    ensures always { (desk : Desk) (happenings : List Happening) → IsKept desk.node → IsKept (after_happenings desk happenings).node }
{}

/// A site that comes back from what it recorded so, or from any front of it, step by step or entry by entry, keeps what it maps then. So each
/// life of a site begins as the first did.
pub fn a_site_that_comes_back_keeps_what_it_maps()
    ensures steps { (node next : Node) (events : List Event) (n : ℕ) → KeptThrough node events
        → replayed_all (kept node) (entries_of node (take n events)) ≡ Some next → IsKept next }
    ensures entries { (node next : Node) (events : List Event) (entries : List Entry) (n : ℕ) → KeptThrough node events
        → all_steps entries ≡ entries_of node events → replayed_all (kept node) (all_steps (take n entries)) ≡ Some next → IsKept next }
{}

/// Of two sites in a world whose sites agree, where one maps a page to write the other doesn't map it.
pub fn a_page_that_is_mapped_to_write_is_mapped_once()
    ensures { (w : World) (s t : ℕ) (a b : Node) (page : PageId) (m : Mapping) → Coherent w → IsTrue (in_limits w.count page)
        → slice_get w.sites s ≡ Some a.site → slice_get w.sites t ≡ Some b.site → s ≢ t → IsKept a → IsKept b
        → mapped_at page a.mapped ≡ Some m → m.kind ≡ Write → mapped_at page b.mapped ≡ None }
{}

/// The bytes that a map is answered with are those that the site has of the page, and each is what a load of it would give.
pub fn a_map_gives_the_sites_bytes()
    ensures { (node : Node) (at index : ℕ) (kind : Kind) (place : Place) → IsMappable node at index kind place → GivesBytes node at index place }
{}

/// The bytes that are brought when a page is given up are the site's then, each in its place, and the page is mapped only so far. The premise:
/// there is a clock for each of its steps.
pub fn what_is_brought_is_the_sites()
    ensures { (desk : Desk) (ask : UnmapAsk) (place : Place) (number : ℕ) (page : List ℕ) → IsBringable desk.node ask place number page
        → IsGivenUp desk (given_up desk ask) ask place number page }
{}
