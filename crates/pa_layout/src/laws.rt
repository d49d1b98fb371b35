ghost use Rattle.pa_layout.specs.Laws.{EachByteHasOneKind, PayloadIsWholePages, PagesLieApart, RecordsLieApart};

/// The law that each byte of a super page lies in exactly one of the five intervals, so it has exactly one kind.
pub fn bytes_have_one_kind()
    ensures { EachByteHasOneKind }
{}

/// The law that the payload is the partition pages 1 to 126, whole.
pub fn payload_is_whole_pages()
    ensures { PayloadIsWholePages }
{}

/// The law that each byte of a super page lies in exactly one partition page, the one that `page_of` returns.
pub fn pages_lie_apart()
    ensures { PagesLieApart }
{}

/// The law that a page's record lies in the metadata of its own super page, and that two records share no byte.
pub fn records_lie_apart()
    ensures { RecordsLieApart }
{}
