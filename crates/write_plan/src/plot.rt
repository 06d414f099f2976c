//! Write amplification by share, drawn as SVG.

ghost use Rattle.std.specs.Prelude.{◌≤◌};
ghost use Rattle.zone_states.specs.Geometry.{IsInRange};

use crate::estimate::{WRITES, expected};
use crate::row::share_of;
use std::alloc::{AllocError, Global};
use zone_states::Geometry;

/// The percents at the left and the right end.
const FIRST: u32 = 50;

const LAST: u32 = 99;

/// The greatest write amplification that is drawn, in hundredths.
const HIGHEST: u32 = 2000;

/// Where the axes meet, and the units of a percent and of an amplification of 1.
const LEFT: u64 = 60;

const BOTTOM: u64 = 430;

const PERCENT_WIDTH: u64 = 11;

const HEIGHT: u64 = 20;

/// How a curve is drawn: without colours its dashes tell it from the others.
struct Pen {
    colour: &'static str,
    dashes: &'static str,
    /// How far from the top its name stands.
    top: u32,
}

/// The pens of the curves.
const PENS: [Pen; 4] = [
    Pen {
        colour: "#8c2d04",
        dashes: "none",
        top: 50,
    },
    Pen {
        colour: "#084594",
        dashes: "9 4",
        top: 70,
    },
    Pen {
        colour: "#005a32",
        dashes: "2 3",
        top: 90,
    },
    Pen {
        colour: "#54278f",
        dashes: "9 3 2 3",
        top: 110,
    },
];

/// How far a percent is from the left.
fn across(percent: u32) -> u64
    requires { 50 ≤ percent × percent ≤ 100 }
{
    LEFT + u64::from(percent - FIRST) * PERCENT_WIDTH
}

/// Adds a vertical line with its percent every five percent.
fn write_percents(text: &mut String) -> Result<(), AllocError> {
    for step in 0..11 {
        let percent = FIRST + 5 * step;
        let x = across(percent);
        writeln!(text, "<path d=\"M{x} 30V{BOTTOM}\" stroke=\"#ddd\"/>")?;
        writeln!(
            text,
            "<text x=\"{x}\" y=\"448\" text-anchor=\"middle\">{percent}</text>"
        )?;
    }
    Ok(())
}

/// Adds a horizontal line with its amplification for every second one.
fn write_amplifications(text: &mut String) -> Result<(), AllocError> {
    for step in 0..11u64 {
        let amplification = 2 * step;
        let y = BOTTOM - amplification * HEIGHT;
        writeln!(text, "<path d=\"M{LEFT} {y}H610\" stroke=\"#ddd\"/>")?;
        writeln!(
            text,
            "<text x=\"50\" y=\"{}\" text-anchor=\"end\">{amplification}</text>",
            y + 4
        )?;
    }
    Ok(())
}

/// Adds the points of a curve, up to the greatest amplification that is drawn.
fn write_points(text: &mut String, geometry: &Geometry, write: u32) -> Result<(), AllocError>
    requires { IsInRange geometry.now }
{
    for percent in FIRST..LAST + 1 {
        let amplification = expected(geometry, share_of(geometry, percent), write).amplification;
        if amplification > HIGHEST {
            break;
        }
        let y = BOTTOM * 10 - u64::from(amplification) * HEIGHT / 10;
        let x = across(percent);
        write!(text, "{x},{}.{} ", y / 10, y % 10)?;
    }
    Ok(())
}

/// Adds a curve.
fn write_curve(
    text: &mut String,
    geometry: &Geometry,
    write: u32,
    pen: &Pen,
) -> Result<(), AllocError>
    requires { IsInRange geometry.now }
{
    text.push_str("<polyline fill=\"none\" stroke-width=\"2\" points=\"")?;
    write_points(text, geometry, write)?;
    writeln!(
        text,
        "\" stroke=\"{}\" stroke-dasharray=\"{}\"/>",
        pen.colour, pen.dashes
    )
}

/// Adds what a curve is, at the top left.
fn write_name(text: &mut String, write: u32, pen: &Pen) -> Result<(), AllocError> {
    let y = pen.top;
    writeln!(
        text,
        "<path d=\"M75 {y}h50\" stroke=\"{}\" stroke-width=\"2\" stroke-dasharray=\"{}\"/>",
        pen.colour, pen.dashes
    )?;
    if write == 1 {
        return writeln!(
            text,
            "<text x=\"133\" y=\"{y}\" dy=\"4\">random writes of 1 block</text>"
        );
    }
    writeln!(
        text,
        "<text x=\"133\" y=\"{y}\" dy=\"4\">random writes, {write} blocks together</text>"
    )
}

/// Adds what all plots have: the size, the axes, and their names.
fn write_frame(text: &mut String) -> Result<(), AllocError> {
    text.push_str("<svg xmlns=\"http://www.w3.org/2000/svg\" viewBox=\"0 0 640 480\" ")?;
    text.push_str("font-family=\"sans-serif\" font-size=\"13\">\n")?;
    text.push_str("<rect width=\"640\" height=\"480\" fill=\"white\"/>\n")?;
    write_percents(text)?;
    write_amplifications(text)?;
    text.push_str("<path d=\"M60 30V430H610\" fill=\"none\" stroke=\"black\"/>\n")?;
    text.push_str("<text x=\"335\" y=\"470\" text-anchor=\"middle\">")?;
    text.push_str("percent of the greatest number of logical blocks</text>\n")?;
    text.push_str("<text x=\"20\" y=\"20\">write amplification</text>\n")?;
    Ok(())
}

/// The write amplification of random writes by the share of the greatest number of logical blocks, as a plot: an SVG
/// file of one curve for each number of blocks together.
pub fn plan_svg(alloc: Global, geometry: &Geometry) -> Result<String, AllocError>
    requires { IsInRange geometry.now }
{
    let mut text = String::new(alloc);
    write_frame(&mut text)?;
    for (write, pen) in WRITES.iter().zip(&PENS) {
        write_curve(&mut text, geometry, *write, pen)?;
        write_name(&mut text, *write, pen)?;
    }
    text.push_str("</svg>\n")?;
    Ok(text)
}
