// What a regeneration does, rule by rule, as theorems.
ghost use Rattle.heap.specs.Effects.{NewCells, OnlyReachable, PointersMove, NumbersStay, LabelsKeep, LinksKeepNothing, SecondChangesNothing, PresentFits};

// The new cell of a kept block is the bins plus the cells of all reachable blocks that lay lower, and nothing else is kept.
pub fn new_cells()
    ensures cells { NewCells }
    ensures only { OnlyReachable }
{}

// A pointer moves by as much as its block and keeps the distance to its title.
pub fn pointers_move()
    ensures { PointersMove }
{}

// A number that equals the cell of a title is not moved.
pub fn numbers_stay()
    ensures { NumbersStay }
{}

// A string with a label and no value is kept.
pub fn labels_keep()
    ensures { LabelsKeep }
{}

// A link keeps nothing alive.
pub fn links_keep_nothing()
    ensures { LinksKeepNothing }
{}

// A second regeneration changes nothing below next.
pub fn second_changes_nothing()
    ensures { SecondChangesNothing }
{}

// A text whose string the arena has needs no room, also where nothing reaches the string.
pub fn present_texts_fit()
    ensures { PresentFits }
{}
