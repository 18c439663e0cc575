//! How the page looks, and what it does: constants, of which nothing comes from a book.

/// The page's style sheet.
pub(crate) const STYLE: &str = "
*{box-sizing:border-box}
body{margin:12px;font:13px/1.35 system-ui,sans-serif;color:#111;background:#fff}
h1{font-size:20px;margin:0 0 4px}
h2{font-size:15px;margin:18px 0 4px}
p{margin:4px 0}
*{-webkit-print-color-adjust:exact;print-color-adjust:exact}
.say{position:sticky;top:0;z-index:9;display:block;min-height:2.7em;margin:6px 0;
padding:5px 8px;border:1px solid #777;background:#fffbe6;overflow-wrap:anywhere}
.key span{display:inline-block;margin-right:14px;white-space:nowrap}
p.key i,p.key u,p.key b{position:static;display:inline-block;vertical-align:middle;min-width:26px;
height:16px;margin-right:4px;line-height:14px;font-style:normal;font-weight:400}
.wide{overflow-x:auto}
table{border-collapse:collapse;width:100%;min-width:1080px;table-layout:fixed}
thead th{font-weight:normal;font-size:10px;padding:0;vertical-align:bottom}
th.n{width:124px;text-align:left;padding:0 4px}
th.m,td.m{width:84px}
thead th.n,tbody th{position:sticky;left:0;z-index:6;background:#fff}
tbody th{font-weight:600;font-size:11px;line-height:12px;text-align:left;
padding:0 4px;overflow:hidden;white-space:nowrap}
tbody tr{border-top:1px solid #bbb;break-inside:avoid}
td{padding:0}
td.m{text-align:right}
td.m:not(:has(.g)){padding-right:6px}
.t{position:relative;height:26px;overflow:hidden}
thead .t{height:30px}
thead .t span{position:absolute;top:0;bottom:0;text-align:center;line-height:14px;
overflow:hidden;border-left:1px solid #999}
thead .t span.c{background:#222;color:#fff}
.t i,.t b,.t u,.t s,.t var{position:absolute;font-style:normal;font-weight:400;text-decoration:none}
i,.key i{top:3px;bottom:3px;min-width:3px;border:1px solid #222;border-radius:3px;
background:hsl(var(--h,210) 60% 80%);font-size:10px;line-height:17px;z-index:3}
.t u.p,.key u.p{top:7px;bottom:7px;border:1px solid #555;background:hsl(var(--h,210) 60% 90%);z-index:2}
.t var{top:3px;height:11px;padding-left:2px;overflow:hidden;white-space:nowrap;font-size:10px;line-height:11px;
text-shadow:0 0 2px #fff,0 0 2px #fff;pointer-events:none;z-index:5}
.t var.l{top:auto;bottom:3px;height:9px;padding:0;font-size:8px;line-height:9px;text-align:center}
i.f{background:repeating-linear-gradient(45deg,#fff 0 3px,#999 3px 5px)}
i.x{outline:3px solid #c00000;outline-offset:-1px;z-index:4}
b,.key b{top:1px;bottom:1px;border:1px dashed #555;
background:repeating-linear-gradient(0deg,#fff 0 3px,#bbb 3px 4px);z-index:2;font-size:10px;line-height:20px;padding-left:2px;overflow:hidden}
u,.key u{top:0;bottom:0;background:rgba(80,120,200,.17)}
s,.key u.r{bottom:0;height:4px;background:#3a8a3a}
p.key u.r{height:4px;background:#3a8a3a}
[tabindex]:focus{outline:3px solid #000;outline-offset:0;z-index:8}
.w{display:table;padding:0 3px;border:1px solid #900;background:#fde3e3;color:#700;
font-size:9px;line-height:9px;font-weight:600}
.k{border-color:#555;background:#eee;color:#333}
.g{display:flex;height:24px;align-items:flex-end;gap:2px;padding:0 3px}
.g span{flex:1;height:22px;border:1px solid #777;position:relative;background:#fff}
.g em{position:absolute;left:0;right:0;bottom:0;background:#6f8fbf}
.g .o em{background:repeating-linear-gradient(45deg,#700 0 2px,#f99 2px 4px)}
.h{display:flex;gap:2px;padding:0 3px;font-size:9px;text-align:center}
.h span{flex:1;overflow:hidden}
details{margin:2px 0 6px 122px}
details li{font-variant-numeric:tabular-nums}
summary{cursor:pointer}
ul{margin:2px 0;padding-left:18px}
@page{size:A3 landscape;margin:8mm}
@media print{.t var{white-space:normal;overflow-wrap:anywhere;font-size:7px;line-height:6px}
.t var:not(.l){height:24px}
body{margin:0;font-size:10px}.say{display:none}.wide{overflow:visible}
table{min-width:0}thead{display:table-header-group}h2{break-after:avoid}}
";

/// The page's script: what is under the pointer or has the focus is told in the line at the top, and arrow
/// keys go from bar to bar.
pub(crate) const SCRIPT: &str = "
(function () {
  var say = document.getElementById('say');
  function tell(event) {
    var at = event.target && event.target.closest ? event.target.closest('[title]') : null;
    if (at) { say.textContent = at.getAttribute('title'); }
  }
  ['mouseover', 'focusin', 'click'].forEach(function (name) { document.addEventListener(name, tell); });
  function bars(row) { return Array.prototype.slice.call(row.querySelectorAll('[tabindex]')); }
  function beside(row, down) {
    do {
      row = down ? row.nextElementSibling : row.previousElementSibling;
    } while (row ? !bars(row).length : false);
    return row ? bars(row)[0] : null;
  }
  window.addEventListener('beforeprint', function () {
    document.querySelectorAll('details').forEach(function (list) { list.open = true; });
  });
  document.addEventListener('keydown', function (event) {
    var at = document.activeElement;
    var row = at && at.closest ? at.closest('tr') : null;
    if (!row || !at.hasAttribute('tabindex')) { return; }
    var all = bars(row), i = all.indexOf(at), to = null;
    if (event.key === 'ArrowRight') { to = all[i + 1]; }
    if (event.key === 'ArrowLeft') { to = all[i - 1]; }
    if (event.key === 'ArrowDown') { to = beside(row, true); }
    if (event.key === 'ArrowUp') { to = beside(row, false); }
    if (to) { to.focus(); event.preventDefault(); }
  });
}());
";
