//! Laws on what a build links, prints and keeps, each as the contract of a function with an empty body.
ghost use Rattle.m51_build_proof.specs.FromChain.{ChainKeepsPromise};
ghost use Rattle.m51_build_proof.specs.Headline.{EachHasOneOutcome, Headline};
ghost use Rattle.m51_build_proof.specs.Laws.{PrintedFigureIsWeight};
ghost use Rattle.m51_build_proof.specs.Overlay.{BuildHasWeight, BuildPrintsLeast, BuildRefusesOverlay};
ghost use Rattle.m51_build_proof.specs.Overlay.{L12OnlyAtPlacing};

/// What holds of each outcome of `build`, for all contents of its files and all numbers of steps.
///
/// It is run, status 0 or 1, exactly if no file is refused and no rule of the link fails; else its outcome is that of
/// the first refusal. What is printed after RUN is the record of the machine that keeps each segment in a store of its
/// own, over the layout and the image of the link and the script. After each step of it at most one live segment covers
/// a cell. The file that is kept is read as the image, which on one memory that has the script's fill outside overlaid
/// cells gives the same entries over the steps that were performed, whatever overlaid cells hold at the start; and so
/// does the verb `flat`, over that file and the same script, for as many steps.
///
/// Source: own choice ("The headline").
pub fn headline()
    ensures { Headline }
{}

/// Each build has an outcome, and only one, out of memory aside.
///
/// Source: own choice ("The headline").
#[tactic(auto, using(crate::proofs::Existing::one_of_each))]
pub fn each_build_has_one_outcome()
    ensures { EachHasOneOutcome }
{}

/// Where the arguments ask for a build, and the files of the shelf are visible: what the contract of the top call says
/// at status 0 or 1 is that the files that the arguments name were read, that the outcome of the build is as promised,
/// that its file is kept, and that its text is written whole.
///
/// Source: own choice ("The headline").
pub fn chain_keeps_the_promise()
    ensures { ChainKeepsPromise }
{}

/// Where each overlaid segment is DATA of type UNIT and no argument segment, and the bytes below 80H that are open for
/// them are one run, the line `OVERLAID` of the map of the layout that placing gives has its weight: the bytes of the
/// heaviest chains and of overlaid segments whose unit lies under no root.
///
/// Source: own choice ("Heaviest chains").
pub fn printed_figure_is_weight()
    ensures { PrintedFigureIsWeight }
{}

/// Under the same condition, for each outcome of `build` that is a run, status 0 or 1: the text begins with the map of
/// the layout that placing gives, its `CHAIN` lines are the heaviest walks, and its `OVERLAID` line has the weight of
/// the graph. The overlaid segments of that layout cover as many bytes of internal RAM as this weight, and those of no
/// sound layout of the same segments fewer, whatever their bases.
///
/// Source: own choice ("Heaviest chains").
pub fn build_prints_least_overlay()
    ensures { BuildPrintsLeast }
{}

/// Under the same condition, for each outcome of `build` that comes as far as placing: it is status 4 and the line of
/// L12 with the name of an overlaid segment exactly if the weight exceeds the length of the run, and neither L9 comes
/// nor L12 for a segment before the overlaid ones. With or without that condition L12 comes only where a build comes as
/// far as placing: no file is refused, and no rule of the link before L9 fails.
///
/// Source: own choice ("Heaviest chains").
pub fn build_refuses_overlay()
    // Which builds that come as far as placing are refused so.
    ensures exact { BuildRefusesOverlay }
    // No other build is.
    ensures only { L12OnlyAtPlacing }
{}

/// Where a build comes as far as placing, there is a weight: a heaviest walk from each root, whose bytes are added up.
///
/// Source: own choice ("Heaviest chains").
pub fn build_has_weight()
    ensures { BuildHasWeight }
{}
