// What is proved, as one list: each claim of the statements, held by a function that cites its proof. A claim is a
// definition in specs/; a proof that goes makes the check of this crate fail. The worked cases P1 to P12 are held by
// the program `cases`; what each operation promises is held by its own contract.
#![tactic(auto)]

ghost use Rattle.cover_statements.specs.Joined.{JoinedCovers};
ghost use Rattle.cover_statements.specs.Sums.{SumsAnywhere, SumsAtBoth};
ghost use Rattle.queue_statements.specs.Edges.{OpeningEdges};
ghost use Rattle.layer_table.specs.Edges.{TableEdges};
ghost use Rattle.segment_set_statements.specs.Edges.{SetEdges};
ghost use Rattle.cover_bounds_statements.specs.Verdicts.{BoundsCases};
ghost use Rattle.row_statements.specs.Claim.{Claim};
ghost use Rattle.row_statements.specs.Example.{Ran};
ghost use Rattle.row_statements.specs.Edges.{RowEdges};
ghost use Rattle.row_statements.specs.PaintEdges.{PaintEdges};
ghost use Rattle.row_lines.specs.Calls.{TellLines};
ghost use Rattle.tile_row_records.specs.Steps.{WorkStep, PaintStep};
ghost use Rattle.listing_statements.specs.Succession.{Succession};
ghost use Rattle.listing_statements.specs.Edges.{DecidingEdges};
ghost use Rattle.listing_runs.specs.Claim.{ListingClaim};
ghost use Rattle.listing_runs.specs.Example.{CallsRan};
ghost use Rattle.batch_statements.specs.Batch.{BatchRefused};
ghost use Rattle.batch_runs.specs.BatchClaim.{BatchClaim};
ghost use Rattle.ffi_sets.specs.Edges.{PlaceEdges};
ghost use Rattle.ffi_sets.specs.SetCalls.{SetCallsClaim};
ghost use Rattle.ffi_four_high.specs.FourHighCalls.{NumbersClaim, NumbersExist};
ghost use Rattle.ffi_calls.specs.Calls.{CallsClaim};
ghost use Rattle.ffi_calls.specs.ListingCalls.{ListingCallsClaim};
ghost use Rattle.ffi_calls.specs.Example.{CallsExist};
ghost use Rattle.ffi_calls.specs.Batches.{BatchesClaim, BatchesExist};
ghost use Rattle.kept_frames.specs.Display.{SolidRight, FirstShown};
ghost use Rattle.kept_frames.specs.Example.{PaintersClip};
ghost use Rattle.kept_frames.specs.Right.{WorkedAfresh, FlagsNoPart, DecisionByPicture, FirstPassRight, FullCoverRight};
ghost use Rattle.kept_frames.specs.Right.{NoneRight, AlikeExact, Widest, UncountedDrawn, RuleOnlyAtNone, TwiceAlike};
ghost use Rattle.kept_frames.specs.Wrong.{WronglyKept};
ghost use Rattle.kept_rows.specs.Along.{RowsTold};
ghost use Rattle.kept_rows.specs.Example.{KeptTile};
ghost use Rattle.kept_rows.specs.Frames.{RowFramesRight};
ghost use Rattle.kept_rows.specs.History.{FirstDrawn, FramesRight, WorkShows};
ghost use Rattle.kept_rows.specs.Painted.{PaintingsRead};
ghost use Rattle.kept_rows.specs.Protocol.{OperationAllows};
ghost use Rattle.kept_rows.specs.Shown.{LayersPainted};
ghost use Rattle.kept_rows.specs.Since.{MarkedTold, MarkedTable};
ghost use Rattle.kept_rows.specs.Walk.{WalkSound, WalkExact};
ghost use Rattle.kept_tiles.specs.Tiles.{TilesRuled, RuleStays, KeptOpened};
ghost use Rattle.curve_text.specs.Curve.{CurveFills};
ghost use Rattle.curve_text.specs.Examples.{CurveLines};
ghost use Rattle.two_rows.specs.Backwards.{Backwards, OpensBoth, RunsBoth};
ghost use Rattle.two_rows.specs.Lowest.{Fails};
ghost use Rattle.two_rows.specs.Apart.{LayersApart};
ghost use Rattle.two_rows.specs.Unmoved.{OthersUnmoved};
ghost use Rattle.two_rows.specs.Example.{Differing};
ghost use Rattle.layer_row_gpu.specs.LayerRun.{LayerClaim};
ghost use Rattle.layer_row_gpu.specs.LayerExample.{LayerRan};
ghost use Rattle.claims.specs.Words.{PackedWords};
ghost use Rattle.claims.specs.Opposite.{OppositeWords};
ghost use Rattle.claims.specs.Rows.{RowsCut};
ghost use Rattle.claims.specs.Layers.{LayerRecords};
ghost use Rattle.claims.specs.Weights.{Weights};
ghost use Rattle.claims.specs.Planes.{Planes};
ghost use Rattle.claims.specs.WholeRow.{FromWholeRow};
ghost use Rattle.claims.specs.Passes.{PassesInWords};
ghost use Rattle.claims.specs.Repainting.{ChangedClips};
ghost use Rattle.claims.specs.Runs.{RunsExist, RunsAlike};
ghost use Rattle.claims.specs.Texts.{JobTexts};
ghost use Rattle.claims.specs.Loads.{Loads};
ghost use Rattle.claims.specs.Sets.{SegmentSets, SetCallsExist};
ghost use Rattle.claims.specs.Bounds.{CoverBounds};
ghost use Rattle.claims.specs.Revisions.{Revisions};
ghost use Rattle.claims.specs.RevisionEdges.{RevisionEdges};
ghost use Rattle.claims.specs.FourHigh.{RowsApart};
ghost use Rattle.claims.specs.Batches.{ListsFew};

// Demand 3: any accepted opening and any list of calls after it, refused ones included. By works and paintings; with
// listings and decidings; by numbers, for callers of the exports; in batches.
pub fn demand_3() -> bool
    ensures { Claim × ListingClaim × CallsClaim × ListingCallsClaim × BatchClaim × BatchesClaim }
{
    true
}

// Demand 1 of batches: a refused one leaves the state and every lent slice as they were, and is refused as its first
// tile is. No tile needs more planes than a batch has free before it.
pub fn batches() -> bool
    ensures { BatchRefused × ListsFew }
{
    true
}

// None of these is empty: runs that meet their premises, with each kind of call; and every list of choices has one.
pub fn not_empty() -> bool
    ensures { Ran × CallsRan × CallsExist × BatchesExist × RunsExist }
{
    true
}

// A run of works and paintings is one of calls, a work is a listing and a deciding in succession, the driver's lines
// are those of a run, and so are the calls of a caller that keeps its carries as records.
pub fn same_runs() -> bool
    ensures { RunsAlike × Succession × TellLines × WorkStep × PaintStep }
{
    true
}

// Document 01, packed words, rows, layer records.
pub fn words_and_rows() -> bool
    ensures { PackedWords × RowsCut × LayerRecords }
{
    true
}

// Document 01, covers, areas, coverage; W-202, W-205 and W-209.
pub fn covers_and_planes() -> bool
    ensures { Weights × Planes × FromWholeRow }
{
    true
}

// Document 01, the passes; W-208.
pub fn passes_in_words() -> bool
    ensures { PassesInWords × ChangedClips }
{
    true
}

// Both sides of the edges of refusals: openings, tile works, paintings, decidings, tables, sets, bounds, records that
// are sent.
pub fn edges() -> bool
    ensures { OpeningEdges × RowEdges × PaintEdges × DecidingEdges × TableEdges × SetEdges × PlaceEdges
        × BoundsCases × RevisionEdges }
{
    true
}

// Texts: the job text; W-201; W-204.
pub fn job_texts() -> bool
    ensures { JobTexts × CurveLines × CurveFills × Loads }
{
    true
}

// W-207, kept sets of segments: any list of edits, and by numbers, for callers of the exports; W-211, covers within
// bounds; W-212, which layer record stands.
pub fn sets_bounds_records() -> bool
    ensures { SegmentSets × SetCallsClaim × SetCallsExist × CoverBounds × Revisions }
{
    true
}

// W-210: outlines run backwards, where it ends, and joined covers.
pub fn backwards() -> bool
    ensures { OppositeWords × Backwards × OpensBoth × RunsBoth × Fails × JoinedCovers }
{
    true
}

// W-213: one layer's row in tiles four pixels high, by the whole row, for callers of the operations and of the exports;
// sums over the tile height, used at 16 and 4.
pub fn four_high() -> bool
    ensures { LayerClaim × LayerRan × NumbersClaim × NumbersExist × RowsApart × SumsAnywhere × SumsAtBoth }
{
    true
}

// W-214: one language leaves another's layers be, and no more than that is said.
pub fn languages() -> bool
    ensures { LayersApart × OthersUnmoved × Differing }
{
    true
}

// Kept tiles: how a tile is drawn afresh, by its list alone; and the histories in which a count alone is wrong.
pub fn drawn_afresh() -> bool
    ensures { WorkedAfresh × FlagsNoPart × DecisionByPicture × PaintersClip × WronglyKept }
{
    true
}

// What is kept would be drawn afresh by the same decision and the same calls, under a clear colour of the same bits.
pub fn kept_alike() -> bool
    ensures { FirstPassRight × FullCoverRight × NoneRight × UncountedDrawn × SolidRight × FirstShown }
{
    true
}

// The rule is the widest, and need be looked at only where the full-cover pass would keep a tile.
pub fn kept_exactly() -> bool
    ensures { AlikeExact × Widest × RuleOnlyAtNone × TwiceAlike }
{
    true
}

// Flags that are truthful along two rows, told or worked out.
pub fn flags_along_rows() -> bool
    ensures { RowsTold × MarkedTold × MarkedTable × WalkSound × WalkExact }
{
    true
}

// A tile through any list of frames, with flags told or worked out; and that there is such a history.
pub fn kept_over_frames() -> bool
    ensures { FramesRight × FirstDrawn × WorkShows × OperationAllows × RowFramesRight × KeptTile }
{
    true
}

// What a work shows is what is painted, layer by layer, as demand 3 has it.
pub fn shown_as_painted() -> bool
    ensures { LayersPainted × PaintingsRead }
{
    true
}

// The keep rule over the tiles of a row leaves what the theorem over frames asks for.
pub fn kept_in_a_row() -> bool
    ensures { TilesRuled × RuleStays × KeptOpened }
{
    true
}
