//! Laws of the definitions' pictures, for every run.
ghost use Rattle.std.specs.Prelude.{List};
ghost use Rattle.shm_place.specs.declared.page_id.PageId.{PageId};
ghost use Rattle.shm_model.specs.World.{Opening};
ghost use Rattle.shm_model.specs.declared.event.Event.{Event};
ghost use Rattle.shm_draw.specs.Arrows.{ArrowsAreHandOvers, ColoursAreOfThePage, FlyingAreLive, HandOversHaveArrows, MarksAreOfThePage, RowsInOrder};

/// Each event has one row, in order. Each arrow in a row is one hand-over or loss, by that row's event, of an envelope of the page, or of
/// no one page. Its site sent that envelope in the row where the arrow begins, above this one. Each hand-over or loss of these has one
/// arrow. An envelope drawn below the last row was sent so too, and is still on its way.
pub fn arrows_are_hand_overs()
    ensures rows { (page : PageId) (o : Opening) (earlier later : List Event) (event : Event) → RowsInOrder page o earlier later event }
    ensures each { (page : PageId) (o : Opening) → ArrowsAreHandOvers page o }
    ensures all { (page : PageId) (o : Opening) → HandOversHaveArrows page o }
    ensures flying { (page : PageId) (o : Opening) → FlyingAreLive page o }
{}

/// On the picture of a page each mark is of an event about this page, or about none. Of any other event there is only the name of its page;
/// and it changes no colour, but where a site gives up a copy for a frame.
pub fn marks_are_of_the_page()
    ensures marks { (page : PageId) (o : Opening) → MarksAreOfThePage page o }
    ensures colours { (page : PageId) → ColoursAreOfThePage page }
{}
