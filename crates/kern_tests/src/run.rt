use abs_run::coverage::Everything;
use abs_run::laws::{
    board_boots, board_runs, every_run, items_determine, lists_are_served, words_are_kept,
};

// The laws at the widest choice of entries. They do nothing when they run.
#[test]
fn the_laws_hold_of_everything() {
    board_runs::<Everything>();
    board_boots::<Everything>();
    every_run();
    items_determine();
    lists_are_served();
    words_are_kept();
}
