// The number of the first row that an act can get.
const FIRST_ROW: usize = 7;

// The end of a response that tells a row, from that one on.
const TOLD: [&str; 7] = [
    "\r\n\r\n{\"row\":7}",
    "\r\n\r\n{\"row\":8}",
    "\r\n\r\n{\"row\":9}",
    "\r\n\r\n{\"row\":10}",
    "\r\n\r\n{\"row\":11}",
    "\r\n\r\n{\"row\":12}",
    "\r\n\r\n{\"row\":13}",
];

// The end of a response to an act before which another is missing.
const GAP: &str = "\"name\":\"RequestGap\",\"refused\":4}";

// A response that says that the disk failed.
const DISK: &str = "500 Internal Server Error\r\nContent-Type: application/json\r\n\
Content-Length: 14\r\n\r\n{\"bad\":\"disk\"}";

// Which act each response is to, and the one before it.
const ASKED: [(usize, usize); 6] = [(0, 3), (0, 3), (1, 0), (1, 0), (2, 1), (2, 1)];

// The end of a response that tells this row.
fn told_of(row: usize) -> &'static str {
    TOLD.get(row.wrapping_sub(FIRST_ROW))
        .copied()
        .unwrap_or("none")
}

// Whether a response to an act tells its row; where the act has none the one before it has none
// either, and that is told.
fn is_right(response: &str, row: Option<usize>, before: Option<usize>) -> bool {
    let (head, end) = match (row, before) {
        (Some(row), _) => ("200 OK\r\n", told_of(row)),
        (None, None) => ("409 Conflict\r\n", GAP),
        (None, Some(_)) => ("none", "none"),
    };
    response.starts_with(head) && response.ends_with(end)
}

// The row of an act; 0 where there is no such act.
fn row_of(rows: &[Option<usize>; 3], act: usize) -> Option<usize> {
    rows.get(act).copied().unwrap_or(Some(0))
}

// Whether the response at a place is to an act of the desk, and right.
fn is_right_at(response: &str, place: usize, rows: &[Option<usize>; 3]) -> bool {
    match ASKED.get(place) {
        Some((act, before)) => is_right(response, row_of(rows, *act), row_of(rows, *before)),
        None => false,
    }
}

/// How often the desk was told that the disk failed, where its three acts have these rows, and all
/// that it was told is right: it asked each act twice.
pub fn faults_told(text: &str, rows: &[Option<usize>; 3]) -> Option<usize> {
    let (mut faults, mut right, mut place) = (0usize, 0usize, 0usize);
    // What stands before the first response is at place 0.
    for response in text.split("HTTP/1.1 ") {
        if response == DISK {
            faults = faults.saturating_add(1);
        } else if is_right_at(response, place.wrapping_sub(1), rows) {
            right = right.saturating_add(1);
        }
        place = place.saturating_add(1);
    }
    let all = place == ASKED.len() + 1 && faults.saturating_add(right) == ASKED.len();
    all.then_some(faults)
}
