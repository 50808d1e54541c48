//! Pages of HTML with readable lines.

use crate::runs::{VERSION, names_in, run_asked};
use std::alloc::{AllocError, Global};
use ttlv_run::{Asked, Encoding, Look, Product, Task, Values, page_of};

// Lines, and what stands for them in the body of a page.
type Row = (&'static str, &'static str);

const ROWS: [Row; 9] = [
    ("", ""),
    // Two levels, and the next message.
    (
        "Tag: A, Type: Structure (0x01), Data:\n  Tag: B, Type: Integer (0x02), Data: 1\nTag: A, Type: Structure (0x01), Data:\n",
        "<details open><summary><span>Tag: A, Type: Structure (0x01), Data:</span></summary>\n<div><span>  Tag: B, Type: Integer (0x02), Data: 1</span></div>\n</details>\n<div><span>Tag: A, Type: Structure (0x01), Data:</span></div>\n",
    ),
    // Columns stand in front of the text, and don't count as its indentation.
    (
        "0\t16\tAA0000\tTag: A, Data:\n8\t4\tBB0000\t  Tag: B, Data: 1\n",
        "<details open><summary><span>0</span><span>16</span><span>AA0000</span><span>Tag: A, Data:</span></summary>\n<div><span>8</span><span>4</span><span>BB0000</span><span>  Tag: B, Data: 1</span></div>\n</details>\n",
    ),
    // An item behind two structures that end, which is the last line of a text without a line feed at its end.
    (
        "Tag: A, Data:\n  Tag: B, Data:\n    Tag: C, Data: 1\n  Tag: D, Data:\n    Tag: E, Data: 2\nTag: F, Data: 3",
        "<details open><summary><span>Tag: A, Data:</span></summary>\n<details open><summary><span>  Tag: B, Data:</span></summary>\n<div><span>    Tag: C, Data: 1</span></div>\n</details>\n<details open><summary><span>  Tag: D, Data:</span></summary>\n<div><span>    Tag: E, Data: 2</span></div>\n</details>\n</details>\n<div><span>Tag: F, Data: 3</span></div>\n",
    ),
    // A structure that is open at the end.
    (
        "Tag: A, Data:\n  Tag: B, Data:\n    Tag: C, Data: 1\n",
        "<details open><summary><span>Tag: A, Data:</span></summary>\n<details open><summary><span>  Tag: B, Data:</span></summary>\n<div><span>    Tag: C, Data: 1</span></div>\n</details>\n</details>\n",
    ),
    // A value is no markup.
    (
        "Tag: A, Data: <script>alert(\"1\" && '2')</script> &lt;é\n",
        "<div><span>Tag: A, Data: &lt;script&gt;alert(&quot;1&quot; &amp;&amp; '2')&lt;/script&gt; &amp;lt;é</span></div>\n",
    ),
    // Headings end what is in front of them.
    (
        "At no known time a > b\nTag: A, Data:\n  Tag: B, Data:\n    Tag: C, Data: 1\nAt no known time b > a\nTag: A, Data:\n",
        "<h2><span>At no known time a &gt; b</span></h2>\n<details open><summary><span>Tag: A, Data:</span></summary>\n<details open><summary><span>  Tag: B, Data:</span></summary>\n<div><span>    Tag: C, Data: 1</span></div>\n</details>\n</details>\n<h2><span>At no known time b &gt; a</span></h2>\n<div><span>Tag: A, Data:</span></div>\n",
    ),
    // Items whose structures aren't shown: one that is a structure itself folds, and a value has none in it.
    (
        "    Tag: A, Data:\n      Tag: B, Data: 1\n  Tag: C, Data: 2\n      Tag: C, Data: 3\n",
        "<details open><summary><span>    Tag: A, Data:</span></summary>\n<div><span>      Tag: B, Data: 1</span></div>\n</details>\n<div><span>  Tag: C, Data: 2</span></div>\n<div><span>      Tag: C, Data: 3</span></div>\n",
    ),
    // An item in more than 64 structures has their number in front.
    (
        "  Tag: A, Data:\n    [65] Tag: A, Data:\n    [66] Tag: B, Data: 1\n",
        "<details open><summary><span>  Tag: A, Data:</span></summary>\n<div><span>    [65] Tag: A, Data:</span></div>\n<div><span>    [66] Tag: B, Data: 1</span></div>\n</details>\n",
    ),
];

// How the end of a page is written, with these rows.
fn page_end(alloc: Global, rows: &str) -> Result<String, AllocError> {
    format!(in alloc; "</head>\n<body>\n{rows}</body>\n</html>\n")
}

fn stands_for(alloc: Global, row: Row) -> bool {
    let (text, rows) = row;
    let Ok(end) = page_end(alloc, rows) else {
        return false;
    };
    match page_of(alloc, text.as_bytes()) {
        Ok(page) => page.as_slice().starts_with(b"<!DOCTYPE html>\n")
            && page.as_slice().ends_with(end.as_bytes()),
        Err(AllocError) => false,
    }
}

#[test]
fn pages(rt: HostRuntime) {
    for row in ROWS {
        assert!(rt; stands_for(rt.alloc(), row), "{row:?}");
    }
}

// The rows of the version's page, with the columns that are asked for, and the next message, which is cut.
const VERSION_ROWS: &str =
    "<details open><summary><span>0</span><span>Tag: Protocol Version (0x420069), Type: Structure (0x01), Data:</span></summary>\n<div><span>8</span><span>  Tag: Protocol Version Major (0x42006A), Type: Integer (0x02), Data: &lt;redacted&gt;</span></div>\n<div><span>24</span><span>  Tag: Protocol Version Minor (0x42006B), Type: Integer (0x02), Data: &lt;redacted&gt;</span></div>\n</details>\n";

const REDACTED: Look<'static> = Look {
    values: Values::Hidden,
    offsets: true,
    ..Look::PLAIN
};

// Whether a run makes a page that ends so, and this is its status.
fn makes(alloc: Global, input: &str, status: u8, rows: &str) -> bool {
    let (Ok(end), Ok(names)) = (page_end(alloc, rows), names_in(alloc)) else {
        return false;
    };
    let asked = Asked::Gather {
        task: Task::Show { look: REDACTED },
        encoding: Encoding::Hexadecimal,
        product: Product::Page,
    };
    let outcome = run_asked(alloc, alloc, &names, asked, input.as_bytes());
    outcome.status == status && outcome.output.as_slice().ends_with(end.as_bytes())
}

#[test]
fn pages_of_messages(rt: HostRuntime) {
    let alloc = rt.alloc();
    assert!(rt; makes(alloc, VERSION, 0, VERSION_ROWS));
    assert!(rt; makes(alloc, "", 0, ""));
    // What is printed in front of a fault, and of a digit that is none.
    let Ok(cut) = format!(in alloc; "{VERSION}420069") else {
        return;
    };
    assert!(rt; makes(alloc, cut.as_str(), 1, VERSION_ROWS));
    let Ok(spoiled) = format!(in alloc; "{VERSION}4200?") else {
        return;
    };
    assert!(rt; makes(alloc, spoiled.as_str(), 2, VERSION_ROWS));
}
