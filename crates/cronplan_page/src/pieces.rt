//! The markup of a page, which is the same for each plan.
ghost use Rattle.std.specs.Prelude.{◌≡◌, ◌++◌, OnOk, string_bytes};
ghost use Rattle.cronplan_page.specs.Pieces.{style_text, week_table_text, piece_text};

use std::alloc::AllocError;

/// A piece of markup.
#[derive(Clone, Copy)]
pub(crate) enum Piece {
    // The beginning of a page: nothing is loaded, and no script runs.
    Head,
    // Its style: light or dark by the reader's setting, for 400 pixels of width or more, and for A4.
    Style,
    HeadEnd,
    PageEnd,
    // Of a page, and of a picture.
    Title,
    TitleEnd,
    // The first heading.
    Name,
    NameEnd,
    Paragraph,
    ParagraphEnd,
    // Between a span and a zone.
    OnClock,
    // Around a second zone whose clock is shown, and one whose clock isn't followed.
    AndOn,
    AndOnEnd,
    Unfollowed,
    UnfollowedEnd,
    // What is said if a plan ends earlier than was asked for.
    Cut,
    // A section that is marked.
    Bad,
    Section,
    SectionEnd,
    List,
    ListEnd,
    // A line of a list, its rest, and its end; a line without a front of its own.
    Item,
    PlainItem,
    ItemRest,
    ItemEnd,
    // Headings.
    IgnoredHeading,
    FrequentHeading,
    QuietHeading,
    FullestHeading,
    WeekHeading,
    LinesHeading,
    DaysHeading,
    JobsHeading,
    // The text in place of an empty list.
    NoWindow,
    NoMoment,
    NoStart,
    NoChange,
    NoWarning,
    // The table of days, with the hours of its head, and what its signs mean.
    WeekTable,
    WeekKey,
    // The table of jobs, with its head.
    JobsTable,
    TableEnd,
    // A row, whose first cell is its name.
    Row,
    RowName,
    RowEnd,
    Cell,
    CellEnd,
    // A cell with a number.
    Number,
    // In place of the starts of a job that isn't shown.
    TooFrequent,
    // An hour that the clock skips.
    SkippedCell,
    // An hour that the plan doesn't have.
    OutsideCell,
    // A picture with its caption.
    Figure,
    Caption,
    Picture,
    Description,
    // The end of a picture's description, and its axis; the end of a mark with a title.
    Axis,
    MarkEnd,
    FigureEnd,
    // A day, which the reader can unfold.
    Day,
    DayName,
    DayEnd,
}

/// Appends a piece of markup to the text of a page. The only error is lack of memory; the text's end is then unspecified.
pub(crate) fn push_piece(out: &mut String, piece: Piece) -> Result<(), AllocError>
    ensures { OnOk result (string_bytes out.new ≡ string_bytes out.old ++ piece_text piece) }
{
    out.push_str(text_of_piece(piece))
}

// The table of the pieces.
#[tactic(auto, unfolding(crate::specs::Pieces::piece_text))]
fn text_of_piece(piece: Piece) -> &'static str
    ensures { result.now ≡ piece_text piece }
{
    match piece {
        Piece::Head =>
            "<!DOCTYPE html>\n<html lang=\"en\">\n<head>\n<meta charset=\"utf-8\">\n<meta http-equiv=\"Content-Security-Policy\" content=\"default-src 'none'; style-src 'unsafe-inline'\">\n<meta name=\"viewport\" content=\"width=device-width, initial-scale=1\">\n",
        Piece::Style => style(),
        Piece::HeadEnd => "</head>\n<body>\n<main>\n",
        Piece::PageEnd => "</main>\n</body>\n</html>\n",
        Piece::Title => "<title>",
        Piece::TitleEnd => "</title>",
        Piece::Name => "<h1>",
        Piece::NameEnd => "</h1>\n",
        Piece::Paragraph => "<p>",
        Piece::ParagraphEnd => "</p>\n",
        Piece::OnClock => ", on the clock of ",
        Piece::AndOn => ", and after = on that of ",
        Piece::AndOnEnd => "",
        Piece::Unfollowed => " (the clock of ",
        Piece::UnfollowedEnd => " isn't followed in these days)",
        Piece::Cut =>
            "<p><b>It ends there, since a plan keeps no more starts: more was asked for.</b></p>\n",
        Piece::Bad => "<section class=\"bad\">\n",
        Piece::Section => "<section>\n",
        Piece::SectionEnd => "</section>\n",
        Piece::List => "<ul>\n",
        Piece::ListEnd => "</ul>\n",
        Piece::Item => "<li><b>",
        Piece::PlainItem => "<li class=\"w\">",
        Piece::ItemRest => "</b> ",
        Piece::ItemEnd => "</li>\n",
        Piece::IgnoredHeading => "<h2>Read this first</h2>\n",
        Piece::FrequentHeading => "<h2>Not shown, since they start too often</h2>\n",
        Piece::QuietHeading =>
            "<h2>Longest quiet windows</h2>\n<p>None of the jobs shown starts in between.</p>\n",
        Piece::FullestHeading => "<h2>Fullest moments</h2>\n",
        Piece::WeekHeading => "<h2>Starts by hour</h2>\n",
        Piece::LinesHeading =>
            "<h2>Each job along the days</h2>\n<p>From the first second of the span to its last: a mark is a start, and a line across a change of the clock.</p>\n",
        Piece::DaysHeading => "<h2>Day by day</h2>\n",
        Piece::JobsHeading => "<h2>Jobs</h2>\n",
        Piece::NoWindow => "<p>There is none.</p>\n",
        Piece::NoMoment => "<p>None of the jobs shown starts.</p>\n",
        Piece::NoStart => "<p>Nothing starts.</p>\n",
        Piece::NoChange => "<p>The clock goes on evenly in these days.</p>\n",
        Piece::NoWarning => "<p>None.</p>\n",
        Piece::WeekTable => week_table(),
        Piece::WeekKey =>
            "<p>Each hour has a number, how many starts it has. An x stands where the clock skips the hour, a dash where the hour isn't in the plan, and a broken line around an hour that the clock shows twice.</p>\n",
        Piece::JobsTable =>
            "<div class=\"wide\">\n<table>\n<tr><th scope=\"col\">Job</th><th scope=\"col\">When</th><th scope=\"col\">Line</th><th scope=\"col\">Starts</th><th scope=\"col\">Next</th><th scope=\"col\">Beware</th></tr>\n",
        Piece::TableEnd => "</table>\n</div>\n",
        Piece::Row => "<tr><th scope=\"row\">",
        Piece::RowName => "</th>",
        Piece::RowEnd => "</tr>\n",
        Piece::Cell => "<td>",
        Piece::CellEnd => "</td>",
        Piece::Number => "<td class=\"n\">",
        Piece::TooFrequent => "<td><p>It starts too often.</p></td>",
        Piece::SkippedCell => "<td class=\"x\">x</td>",
        Piece::OutsideCell => "<td class=\"x\">-</td>",
        Piece::Figure => "<figure><figcaption><b>",
        Piece::Caption => "</b> ",
        Piece::Picture =>
            "</figcaption><svg viewBox=\"0 0 1000 20\" preserveAspectRatio=\"none\" role=\"img\">",
        Piece::Description => "<desc>",
        Piece::Axis => "</desc><rect class=\"a\" x=\"0\" width=\"1000\"/>",
        Piece::MarkEnd => "</title></rect>",
        Piece::FigureEnd => "</svg></figure>\n",
        Piece::Day => "<details><summary>",
        Piece::DayName => "</summary>\n",
        Piece::DayEnd => "</details>\n",
    }
}

#[tactic(auto, unfolding(crate::specs::Pieces::style_text))]
fn style() -> &'static str
    ensures { result.now ≡ style_text }
{
    "<style>\n:root { color-scheme: light dark; --ink: #1b1f24; --soft: #57606a; --paper: #ffffff; --line: #d0d7de; --bad: #a40e26; --mark: #0550ae; }\n@media (prefers-color-scheme: dark) { :root { --ink: #e6edf3; --soft: #9da7b3; --paper: #0d1117; --line: #3d444d; --bad: #ff9492; --mark: #79c0ff; } }\nbody { margin: 0; background: var(--paper); color: var(--ink); font: 16px/1.5 system-ui, sans-serif; }\nmain { max-width: 70rem; margin: 0 auto; padding: 1rem; }\nh1 { font-size: 1.6rem; line-height: 1.2; } h2 { font-size: 1.2rem; margin: 1.6rem 0 .4rem; }\np { margin: .3rem 0; } ul { margin: .3rem 0; padding-left: 1.2rem; } li { overflow-wrap: anywhere; }\n.bad { border-left: .3rem solid var(--bad); padding-left: 1rem; } .bad h2 { color: var(--bad); }\n.wide { overflow-x: auto; } table { border-collapse: collapse; font-size: .875rem; }\nth, td { padding: .2rem .4rem; text-align: left; vertical-align: top; border-bottom: 1px solid var(--line); }\ntd ul { padding-left: 1rem; margin: 0; } td p { margin: 0; } td.n { text-align: right; } .w { white-space: nowrap; }\n.week td[class], .week th[scope=col] { text-align: center; min-width: 1.4rem; padding: .2rem; font-variant-numeric: tabular-nums; }\n.week th[scope=row], .week td { white-space: nowrap; } .week td.n { text-align: right; }\n.s1, .s2 { background: #0969da26; } .s3, .s4 { background: #0969da4d; } .s5, .s6 { background: #bf870073; } .s7, .s8 { background: #bf3989; color: #ffffff; }\n.t { outline: 1px dashed var(--soft); outline-offset: -2px; } .x { color: var(--soft); }\nfigure { margin: .6rem 0; } figcaption { font-size: .875rem; overflow-wrap: anywhere; }\nsvg { display: block; width: 100%; height: 20px; } rect { height: 12px; y: 4px; }\n.a { fill: var(--line); height: 2px; y: 9px; } .m { fill: var(--mark); width: 3px; } .b { fill: var(--mark); opacity: .4; } .h { fill: var(--bad); width: 2px; height: 20px; y: 0; }\nsummary { cursor: pointer; }\n@page { size: A4; margin: 12mm; }\n@media print { main { max-width: none; padding: 0; } body { font-size: 11px; } tr, figure, li { break-inside: avoid; } .wide { overflow: visible; } table { font-size: 9px; } .week td[class], .week th[scope=col] { min-width: 0; padding: 1px; } }\n</style>\n"
}

#[tactic(auto, unfolding(crate::specs::Pieces::week_table_text))]
fn week_table() -> &'static str
    ensures { result.now ≡ week_table_text }
{
    "<div class=\"wide\">\n<table class=\"week\">\n<tr><td></td><th scope=\"col\">00</th><th scope=\"col\">01</th><th scope=\"col\">02</th><th scope=\"col\">03</th><th scope=\"col\">04</th><th scope=\"col\">05</th><th scope=\"col\">06</th><th scope=\"col\">07</th><th scope=\"col\">08</th><th scope=\"col\">09</th><th scope=\"col\">10</th><th scope=\"col\">11</th><th scope=\"col\">12</th><th scope=\"col\">13</th><th scope=\"col\">14</th><th scope=\"col\">15</th><th scope=\"col\">16</th><th scope=\"col\">17</th><th scope=\"col\">18</th><th scope=\"col\">19</th><th scope=\"col\">20</th><th scope=\"col\">21</th><th scope=\"col\">22</th><th scope=\"col\">23</th><th scope=\"col\">Starts</th><th scope=\"col\">Fullest</th></tr>\n"
}
