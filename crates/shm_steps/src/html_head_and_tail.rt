//! The same parts of each page: how it looks, and what keys do. `pages/head.html` and `pages/tail.html` are these, to be read as files.

/// What stands before the picture: the style, and the controls.
pub(crate) const HEAD: &str = "<!doctype html>
<html lang='en'><head><meta charset='utf-8'><meta name='viewport' content='width=device-width, initial-scale=1'>
<title>A run, step by step</title>
<style>
:root{color-scheme:light dark;--ground:#fff;--ink:#222;--dim:#595959;--line:#ccc;--band:#fff0b3;--new:#b00020}
*{box-sizing:border-box}
body{margin:0;background:var(--ground);color:var(--ink);font:15px/1.45 system-ui,sans-serif}
header{display:flex;flex-wrap:wrap;align-items:center;gap:.5em 1em;padding:.5em 1em;border-bottom:1px solid var(--line)}
header:not(.on){display:none}
header input{flex:1;min-width:12em}
header output{min-width:9em}
button{font:inherit;padding:.1em .7em}
kbd{border:1px solid var(--line);border-radius:3px;padding:0 .3em;font-size:.85em}
.keys{color:var(--dim);font-size:.9em}
#picture{overflow:auto;padding:.5em}
#picture svg{display:block;font-family:monospace}
#picture .band{fill:var(--band)}
section{padding:.3em 1em 1em;border-top:1px solid var(--line);overflow:auto}
section:focus{outline:0}
section>h2{margin:.3em 0 0;font:bold 1.25em monospace}
section>h3{margin:1em 0 .2em;font-size:1em;color:var(--dim)}
section>pre{margin:.2em 0 .8em;white-space:pre-wrap}
table{border-collapse:collapse}
th,td{border:1px solid var(--line);padding:.2em .5em;text-align:left;vertical-align:top}
th,td[class]{white-space:nowrap}
th{font-weight:normal;color:var(--dim)}
td ol{margin:0;padding-left:1.4em}
ul{margin:0;padding-left:1.4em}
ul:not(:has(li)){list-style:none;padding:0;color:var(--dim)}
ul:not(:has(li))::after{content:'nothing'}
td.Copy{background:#c6dbef;color:#111}
td.OwnRead{background:#6baed6;color:#111}
td.OwnWrite{background:#f28e2b;color:#111}
td.Handed{background:#fde2c4;color:#111}
td.Purged{background:#888;color:#fff}
td.changed{outline:3px solid var(--new);outline-offset:-3px;font-weight:bold}
li.new{font-weight:bold}
body.on{display:grid;height:100vh;overflow:hidden;grid-template:auto minmax(0,1fr)/minmax(0,1fr) minmax(0,1fr)}
body.on header{grid-column:1/3}
body.on section{display:none;border-top:0;border-left:1px solid var(--line)}
body.on section.now{display:block}
@media(max-width:1000px){body.on{grid-template:auto minmax(0,1fr) minmax(0,1fr)/minmax(0,1fr)}body.on header{grid-column:1}
body.on section{border-left:0;border-top:1px solid var(--line)}}
@media(prefers-color-scheme:dark){:root{--ground:#15171a;--ink:#ddd;--dim:#a3a3a3;--line:#4a4a4a;--new:#ff7b8a}
#picture svg{filter:invert(.9) hue-rotate(180deg)}}
</style></head><body>
<header><button id='back' type='button'>back</button><input id='slider' type='range' min='0' value='0' aria-label='step'><button id='on' type='button'>on</button><output id='place' aria-live='polite'></output><span class='keys'><kbd>&larr;</kbd> <kbd>&rarr;</kbd> one step, <kbd>Home</kbd> <kbd>End</kbd></span></header>
<div id='picture'>
";

/// What stands behind the last step: the script, which shows one step at a time.
pub(crate) const TAIL: &str = "<script>
'use strict';
(function () {
  const steps = Array.from(document.querySelectorAll('section'));
  const pictures = Array.from(document.querySelectorAll('#picture svg > g'));
  const slider = document.getElementById('slider');
  const last = steps.length - 1;
  let now = 0;

  // a band over the step's row in each picture: rows are 22 high, and the first has its middle at 78
  const bands = pictures.map(function (picture) {
    const band = document.createElementNS('http://www.w3.org/2000/svg', 'rect');
    band.setAttribute('class', 'band');
    band.setAttribute('width', '100%');
    band.setAttribute('height', '22');
    picture.insertBefore(band, picture.firstChild);
    return band;
  });

  function row_of(picture, number) {
    return picture.querySelectorAll(`text[x='8'].l, text[x='8'].e`)[number - 1];
  }

  // the picture on which the step's row isn't grey, or else the first
  function picture_of(number) {
    const found = pictures.findIndex(function (picture) {
      const row = row_of(picture, number);
      return row && row.getAttribute('class') === 'l';
    });
    return Math.max(0, found);
  }

  // what differs from the step before
  function mark(step, before) {
    const had = before.querySelectorAll('td');
    step.querySelectorAll('td').forEach(function (cell, place) {
      cell.classList.toggle('changed', !had[place] || had[place].innerHTML !== cell.innerHTML);
    });
    const items = new Set(Array.from(before.querySelectorAll('ul > li')).map(function (item) { return item.textContent; }));
    step.querySelectorAll('ul > li').forEach(function (item) {
      item.classList.toggle('new', !items.has(item.textContent));
    });
  }

  function show(number) {
    steps[now].classList.remove('now');
    now = Math.max(0, Math.min(last, number));
    steps[now].classList.add('now');
    slider.value = now;
    document.getElementById('place').textContent = 'line ' + (now + 1) + ' of ' + (last + 1);
    bands.forEach(function (band) { band.setAttribute('y', 67 + 22 * now); });
    if (bands.length > 0) {
      bands[picture_of(now)].scrollIntoView({ block: 'center', inline: 'nearest' });
    }
    if (location.hash !== '#step-' + now) {
      try { history.replaceState(null, '', '#step-' + now); } catch (refused) { }
    }
  }

  function go_to_hash() {
    const found = /^#step-([0-9]+)$/.exec(location.hash);
    show(found ? Number(found[1]) : 0);
  }

  // a click on a picture goes to its row
  function clicked(event) {
    pictures.forEach(function (picture, place) {
      const top = picture.getScreenCTM().f;
      const next = place + 1 < pictures.length ? pictures[place + 1].getScreenCTM().f : Infinity;
      const number = Math.round((event.clientY - top - 78) / 22);
      if (event.clientY >= top && event.clientY < next && number >= 0 && number <= last) {
        show(number);
      }
    });
  }

  steps.forEach(function (step, place) {
    step.tabIndex = 0;
    if (place > 0) { mark(step, steps[place - 1]); }
  });
  slider.max = last;
  slider.addEventListener('input', function () { show(Number(slider.value)); });
  document.getElementById('back').addEventListener('click', function () { show(now - 1); });
  document.getElementById('on').addEventListener('click', function () { show(now + 1); });
  document.getElementById('picture').addEventListener('click', clicked);
  window.addEventListener('hashchange', go_to_hash);
  document.addEventListener('keydown', function (event) {
    if (event.ctrlKey || event.altKey || event.metaKey) { return; }
    const to = { ArrowLeft: now - 1, ArrowUp: now - 1, ArrowRight: now + 1, ArrowDown: now + 1, Home: 0, End: last }[event.key];
    if (to === undefined) { return; }
    event.preventDefault();
    show(to);
  });
  document.body.classList.add('on');
  document.querySelector('header').classList.add('on');
  go_to_hash();
})();
</script>
</body></html>
";
