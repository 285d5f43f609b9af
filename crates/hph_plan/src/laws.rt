//! Laws of plans: contracts of functions that do nothing.

ghost use Rattle.hph_plan.specs.Laws.{LiteralsLieAtTheirPlaces, LiteralsHavePlaces, NamesHaveSlots, SlotsAreInRange, SlotsAreApart, PlansListOnce, BodiesListOnce, ListsTheSame};

/// Each literal has a place, and its bytes lie there.
pub fn literals_have_places()
    ensures there { LiteralsLieAtTheirPlaces }
    ensures each { LiteralsHavePlaces }
{}

/// Each name of a frame has a slot of that frame, which no other name has.
pub fn names_have_slots()
    ensures each { NamesHaveSlots }
    ensures range { SlotsAreInRange }
    ensures apart { SlotsAreApart }
{}

/// A plan has each literal and each variable once, and loses none.
pub fn lists_once()
    ensures plans { PlansListOnce }
    ensures bodies { BodiesListOnce }
    ensures same { ListsTheSame }
{}
