// The report of the list program: every byte is compared with a report that is written from the walk over all cells.
use scope::Run;
use trying::reference::{Judged, Lists};
use trying::{printing, reference, spelling};

// Whether the report on a text is just these bytes.
pub fn reports(text: &[u8], expected: &[u8]) -> bool {
    let output = report::report(text);
    output
        .bytes
        .get(..output.length)
        .is_some_and(|bytes| bytes == expected)
}

// Whether the report on a text is as it is to be. One with more than 12 sources or 1,024 cells is not looked at here, but by the checks
// of the list program.
pub fn report_agrees(text: &[u8], judged: Judged, run: Run, sources: Lists<'_>) -> bool {
    let mut map = [0u8; 1024];
    let cells = judged.map_or(0, |()| reference::cells(run));
    let Some(map) = map.get_mut(..cells) else {
        return true;
    };
    if 12 < sources.count() {
        return true;
    }
    let answer = printing::answer(judged, run, sources, map);
    answer.is_ok_and(|expected| reports(text, spelling::written(&expected)))
}
