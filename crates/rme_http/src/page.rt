//! The page, which shows a person how a state stands.

ghost use Rattle.std.specs.Prelude.{◌≡◌, IfOk, string_bytes};
ghost use Rattle.rme_http.specs.Page.{whole_page};

use crate::page_script::PAGE_SCRIPT;
use crate::page_style::PAGE_STYLE;
use std::alloc::{AllocError, Global};

/// The page up to its style.
const PAGE_FRONT: &str = r##"<!doctype html>
<html lang="en">
<head>
<meta charset="utf-8">
<meta name="viewport" content="width=device-width, initial-scale=1">
<title>rme</title>
<style>"##;

/// The page between its style and its script.
const PAGE_BODY: &str = r##"</style>
</head>
<body>
<header>
<h1>rme</h1>
<span id="epoch" class="quiet"></span>
<span id="live" class="quiet">connecting</span>
</header>
<div id="gone" class="hide"><span id="why" role="alert"></span> <span id="old"></span></div>
<p id="space" class="hide"><label for="space-name">Space: </label><input id="space-name" autocomplete="off">
<button type="button" id="space-go">Show</button></p>
<main id="data">
<section aria-labelledby="finish-title">
<h2 id="finish-title">To finish<span id="finish-count"></span></h2>
<ul id="finish"></ul>
</section>
<section aria-labelledby="locks-title">
<h2 id="locks-title">Locks</h2>
<table>
<thead><tr><th>Lock</th><th>Owner</th><th>State</th><th>For</th><th class="number">Waiting</th>
<th class="number">Jobs</th><th class="number">Jobs/s</th></tr></thead>
<tbody id="locks"></tbody>
</table>
</section>
<section aria-labelledby="waiting-title">
<h2 id="waiting-title">Who waits</h2>
<p id="no-waiting" class="quiet">Nobody.</p>
<table id="waiting-table" class="hide">
<thead><tr><th>Worker</th><th>Lock</th><th>Waits for</th><th>For</th></tr></thead>
<tbody id="waiting"></tbody>
</table>
</section>
<section aria-labelledby="rates-title">
<h2 id="rates-title">Jobs a second</h2>
<svg id="rates" viewBox="0 0 600 120" preserveAspectRatio="none" role="img" aria-labelledby="rate-now">
<polyline id="rate-line" points=""/></svg>
<p class="ends quiet"><span>5 minutes ago</span><span>now</span></p>
<p id="rate-now" class="quiet"></p>
</section>
</main>
<noscript><p>This page needs a script. <a href="status">The status as JSON.</a></p></noscript>
<script>"##;

/// The page behind its script.
const PAGE_END: &str = "</script>\n</body>\n</html>\n";

/// The policy of the page: its own style and script, and requests to its own server.
pub(crate) const PAGE_POLICY: &str =
    "default-src 'none'; style-src 'sha256-F8TNlhTeDMjIz32Iv4ioxOUPzrv8B5rDqk9yZcn5nWg='; script-src 'sha256-sRO47Qp7qBtly6esQvpLfd6TvlUUSbOhthP3w840r0c='; connect-src 'self'; base-uri 'none'; form-action 'none'; frame-ancestors 'none'";

/// The page.
pub(crate) fn page(alloc: Global) -> Result<String, AllocError>
    ensures { IfOk result (λ text. string_bytes text ≡ whole_page) }
{
    let mut text = String::from_str(alloc, PAGE_FRONT)?;
    text.push_str(PAGE_STYLE)?;
    text.push_str(PAGE_BODY)?;
    text.push_str(PAGE_SCRIPT)?;
    text.push_str(PAGE_END)?;
    Ok(text)
}
