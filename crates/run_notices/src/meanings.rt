use book_words::Refusal;

/// What a refusal means of a line of a setup, in plain words.
pub(crate) fn meaning(refusal: &Refusal) -> &'static str {
    match refusal {
        Refusal::DeskNumber => "a desk has a number from 101 to 164",
        Refusal::RequestOld { .. } => "the desk was at a later request already",
        Refusal::RequestReused { .. } => {
            "the desk did another act under this number: give the line a new one"
        }
        Refusal::RequestGap { .. } => {
            "the desk's next request has another number: a line before was refused, or left out"
        }
        Refusal::BookFull { .. } => "the book is full",
        Refusal::DayUnset => "a day has to be set first",
        Refusal::DayBack { .. } => "the book is at a later day",
        Refusal::ProductKnown => "a product has this name already",
        Refusal::ProductUnknown => "no product has this name",
        Refusal::NameShape => {
            "a name is 1 to 32 of A-Z a-z 0-9 - _ . and begins with a letter or digit"
        }
        Refusal::NominalRange => "a nominal quantity is 5 g to 10 kg, or 5 ml to 10 l",
        Refusal::DayRange => "a day is 1970-01-01 to 9999-12-31",
        Refusal::BatchKnown => "a batch has this name already",
        Refusal::BatchUnknown => "no batch has this name",
        Refusal::BatchState { .. } => "the batch is past that, or not there yet",
        Refusal::LaneNumber => "a lane has a number from 1 to 16",
        Refusal::LaneBusy { .. } => "the lane has this batch already",
        Refusal::LaneIdle => "the lane has no batch",
        Refusal::NoTare { .. } => "this product has no tare on the newest day",
        Refusal::GrossRange => "a pack weighs 0 to 30 kg",
        Refusal::PriorWrong { .. } => {
            "what the gate did before is missing, or there was nothing that it did"
        }
        Refusal::LanesRunning { .. } => "this lane has the batch",
        Refusal::TareRange => "a tare is 0 to 5 kg",
        Refusal::PackUnknown => "no pack has this number",
        Refusal::PackPile { .. } => "the pack lies in this pile",
        Refusal::Unsettled { .. } => "the pack may still be at the gate of this lane",
        Refusal::BatchEmpty => "the batch has no pack",
        Refusal::ModeSmall { .. } => "the batch has too few packs to open any",
        Refusal::NotDrawn => "no sample was drawn",
        Refusal::MeasuredAlready { .. } => "the pack was measured already",
        Refusal::SecondNotNeeded { .. } => "no second sample is needed",
        Refusal::Unmeasured { .. } => "this pack has to be measured first",
        Refusal::SecondNeeded { .. } => "a second sample has to be drawn first",
        Refusal::TareFrozen { .. } => "this batch has its verdict, with the tare that was in force",
        Refusal::DensityRange => "a density is 500 to 2000 g a litre, and goods by mass have none",
    }
}
