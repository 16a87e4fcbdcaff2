// Laws of the definitions that the contracts cite.
ghost use Rattle.live_lines.specs.Laws.{RefusedStays, ToldInParts};

/// A line that is told as refused changes nothing, and lines may be taken in parts.
pub fn lines_are_taken_in_order()
    ensures refused { RefusedStays }
    ensures parts { ToldInParts }
{}
