//! Cuts a sample bale list into pages on the forms whose heights are its arguments, and prints a line for each page.
#![tactic(auto)]

ghost use Rattle.std.specs.Prelude.{◌≡◌, length, OnOk};

mod sample;

use anyhow::Context;
use content::Content;
use sheets::{Forms, Page, Tally, form_height, next_page};
use std::alloc::Global;
use std::env;

// The heights on the command line, or which of them is no height.
fn read_forms(rt: &HostRuntime, heap: Global) -> anyhow::Result<Forms> {
    let mut heights = Vec::new(heap);
    for text in env::args(rt)?.skip(1) {
        heights.push(form_height(text.as_str())?)?;
    }
    Forms::new(heights).context("no form height given: say one or more, as in 'bale_list 1440 720'")
}

fn print_page(rt: &HostRuntime, tally: &Tally, form: u32, page: &Page) -> anyhow::Result<()> {
    let over = if page.is_over(form) {
        "over"
    } else {
        "not over"
    };
    println!(rt;
        "page {}: form {form}, used {}, strips {}, rank {}, {over}, bales carried {}",
        tally.pages.saturating_add(1),
        page.height,
        page.strips,
        page.rank,
        tally.bales
    )?;
    Ok(())
}

// Lays every page of a content on the forms that come next.
fn print_pages<C: Content>(
    rt: &HostRuntime,
    content: &mut C,
    forms: &mut Forms,
    tally: &mut Tally,
) -> anyhow::Result<()>
    ensures { OnOk result (length (C.strips content.new) ≡ 0) }
{
    while content.count() > 0 {
        let form = forms.take();
        let page = next_page(content, form);
        print_page(rt, tally, form, &page)?;
        tally.add(&page);
    }
    Ok(())
}

fn run(rt: &HostRuntime) -> anyhow::Result<()> {
    let heap = rt.alloc();
    let mut forms = read_forms(rt, heap)?;
    let mut list = sample::list(heap).context("no memory for the sample list")?;
    let mut tally = Tally::new();
    print_pages(rt, &mut list, &mut forms, &mut tally)?;
    println!(rt;
        "closing: pages {}, strips left {}, bales {}",
        tally.pages,
        list.count(),
        tally.bales
    )?;
    Ok(())
}

fn main(rt: HostRuntime) -> anyhow::Result<()> {
    run(&rt)
}
